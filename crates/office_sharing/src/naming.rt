use std::marker::Brand;

/// Which run it is: the table that its office lies in, and its program.
pub trait Naming {
    ghost use Rattle.std.specs.Prelude.{Option};
    ghost use Rattle.atomic_table.specs.Seated.{TableId};
    ghost use Rattle.behaviour_tree.specs.declared.program.Program.{Program};

    ghost table: { TableId };

    ghost program: { Option Program };
}

impl Naming for Brand {
    ghost use Rattle.std.specs.Prelude.{None};
    ghost use Rattle.office_sharing.specs.Named.{no_table};

    ghost table = { no_table };

    ghost program = { None };
}
