ghost use Rattle.std.specs.Prelude.{codes};
ghost use Rattle.behaviour_tree.specs.declared.standard.TheConstants.{IO_EXCEPTION, TYPE_MISMATCH, CORRELATION_ERROR, REFUSED, UNDECLARED_FAULT, EXPR_FAULT, HANDLER_TOO_LARGE, STORE_TOO_LARGE, MAIN};
ghost use Rattle.session_calculus.specs.Names as names;
ghost use Rattle.session_calculus.specs.StandardTexts.{IsNamed};

/// Does nothing: its clauses say that each standard name has one number, in the code and in the calculus, and which
/// text stands there.
pub fn standard_names_have_their_texts()
    ensures io_exception { IsNamed IO_EXCEPTION names.io_exception (codes "IOException") }
    ensures type_mismatch { IsNamed TYPE_MISMATCH names.type_mismatch (codes "TypeMismatch") }
    ensures correlation_error { IsNamed CORRELATION_ERROR names.correlation_error (codes "CorrelationError") }
    ensures refused { IsNamed REFUSED names.refused (codes "Refused") }
    ensures undeclared_fault { IsNamed UNDECLARED_FAULT names.undeclared_fault (codes "UndeclaredFault") }
    ensures expr_fault { IsNamed EXPR_FAULT names.expr_fault (codes "ExprFault") }
    ensures handler_too_large { IsNamed HANDLER_TOO_LARGE names.handler_too_large (codes "HandlerTooLarge") }
    ensures store_too_large { IsNamed STORE_TOO_LARGE names.store_too_large (codes "StoreTooLarge") }
    ensures main { IsNamed MAIN names.main (codes "main") }
{}
