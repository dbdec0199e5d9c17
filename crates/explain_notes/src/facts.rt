//! What the definitions of a file say.

ghost use Rattle.std.specs.Prelude.{◌≡◌, IfOk};
ghost use Rattle.explain_notes.specs.Answers.{content_names};
ghost use Rattle.explain_notes.specs.Notes.{declared_faults, told};
ghost use Rattle.explain_notes.specs.Services.{own_sockets};

use crate::content::content_names;
use crate::declared::declared_faults;
use crate::sockets::own_sockets;
use check_base::Names;
use jolie_ast::Definition;
use std::alloc::{AllocError, Global};
use std::marker::Model;

/// The faults that the operations of a file throw, the operations that are content with void, and the sockets at which
/// its services are called.
#[derive(Drop)]
pub struct Facts<'a> {
    faults: Names<'a>,
    content: Names<'a>,
    sockets: Names<'a>,
}

impl<'a> Model for Facts<'a> {
    ghost use Rattle.std.specs.Coded.{codes};
    ghost use Rattle.explain_notes.specs.Notes.{Told, told};

    ghost Value = { Told };

    ghost coded = { Prim.hlevel codes };

    ghost view = { λ f. told f.faults f.content f.sockets };
}

impl<'a> Facts<'a> {
    pub fn new(alloc: Global, file: &'a [Definition]) -> Result<Facts<'a>, AllocError>
        ensures { IfOk result
            (λ facts. facts ≡ told (declared_faults file.now) (content_names file.now) (own_sockets file.now)) }
    {
        let faults = declared_faults(alloc, file)?;
        let content = content_names(alloc, file)?;
        let sockets = own_sockets(alloc, file)?;
        Ok(Facts {
            faults,
            content,
            sockets,
        })
    }

    pub fn faults(&self) -> &Names<'a>
        ensures { result.now ≡ self.now.faults }
    {
        &self.faults
    }

    pub fn content(&self) -> &Names<'a>
        ensures { result.now ≡ self.now.content }
    {
        &self.content
    }

    pub fn sockets(&self) -> &Names<'a>
        ensures { result.now ≡ self.now.sockets }
    {
        &self.sockets
    }
}
