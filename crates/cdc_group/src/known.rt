//! The branch that an `XA START` named, so that its `XA END` needs no second reading.

ghost use Rattle.std.specs.Prelude.{◌≡◌, IfSome};
ghost use Rattle.cdc_query.specs.Words.{verb_of};
ghost use Rattle.cdc_query.specs.declared.verb.Verb.TheVariants.{XaStart as Starts, XaEnd as Ends};
ghost use Rattle.cdc_group.specs.Known.{IsKnown, start_text, end_text};

use cdc_base::{Buffer, Xid};
use std::alloc::Global;

/// A branch, where one is known, and its name as it stands in the texts of its group.
#[derive(Debug, Drop)]
pub(crate) struct Known {
    xid: Option<Xid>,
    name: Buffer,
}

// What stands behind `XA START `, where a text begins so.
fn name_started(text: &[u8]) -> Option<&[u8]>
    ensures { IfSome result (λ name. text.now ≡ start_text name.now) }
{
    let [
        b'X',
        b'A',
        b' ',
        b'S',
        b'T',
        b'A',
        b'R',
        b'T',
        b' ',
        name @ ..,
    ] = text
    else {
        return None;
    };
    Some(name)
}

// What stands behind `XA END `, where a text begins so.
fn name_ended(text: &[u8]) -> Option<&[u8]>
    ensures { IfSome result (λ name. text.now ≡ end_text name.now) }
{
    let [b'X', b'A', b' ', b'E', b'N', b'D', b' ', name @ ..] = text else {
        return None;
    };
    Some(name)
}

impl Known {
    /// None.
    #[tactic(auto, using(crate::proofs::Names::none_known))]
    pub(crate) fn new(alloc: Global) -> Known
        ensures { IsKnown result }
    {
        Known {
            xid: None,
            name: Buffer::new(alloc),
        }
    }

    /// The known branch, where this text ends it, byte for byte as it was started; else none.
    #[tactic(auto, using(crate::proofs::Names::known_ends))]
    pub(crate) fn ended(&self, text: &[u8]) -> Option<Xid>
        requires { IsKnown self.now }
        ensures { IfSome result (λ xid. verb_of text.now ≡ Ends xid) }
    {
        let name = name_ended(text)?;
        if name == self.name.bytes() {
            self.xid
        } else {
            None
        }
    }

    /// Knows the branch that this text starts; or none, where the text is written in another way or there is too little
    /// memory.
    pub(crate) fn start(&mut self, text: &[u8], xid: &Xid)
        requires { verb_of text.now ≡ Starts xid.now }
        ensures { IsKnown self.new }
    {
        self.xid = None;
        self.name.truncate(0);
        let Some(name) = name_started(text) else {
            return;
        };
        if self.name.push(name).is_ok() {
            self.xid = Some(*xid);
        }
    }
}
