// What is written for one thing that is asked.
ghost use Rattle.std.specs.Prelude.{◌≡◌, ◌≤◌, ◌∷◌, [], IfErr, IsErrOf, OnOk};
ghost use Rattle.ri_ends.specs.Causes.{Rose};
ghost use Rattle.command_pieces.specs.Faults.{IsCut, StaysUnless};
ghost use Rattle.command_pieces.specs.Pieces.{WritesFront};
ghost use Rattle.command_pieces.specs.Written.{AllWritten, refused_piece, told_piece};

use crate::fault::Fault;
use ri_ends::{OutFault, Sink};
use std::marker::Model;

/// A piece of what a command writes.
#[derive(Debug, Drop)]
pub struct Reply {
    text: Vec<u8>,
    is_refusal: bool,
}

impl Model for Reply {
    ghost use Rattle.std.specs.Prelude.{None};
    ghost use Rattle.command_pieces.specs.Written.{Plain};

    ghost Value = { Plain };

    ghost view = { λ r. record { text = r.text.items; is_refusal = r.is_refusal; flushes = None } };
}

impl Reply {
    /// A text that says what was asked for.
    pub fn told(text: Vec<u8>) -> Reply
        ensures { result ≡ told_piece text.items }
    {
        Reply {
            text,
            is_refusal: false,
        }
    }

    /// A text that says that something is refused.
    pub fn refused(text: Vec<u8>) -> Reply
        ensures { result ≡ refused_piece text.items }
    {
        Reply {
            text,
            is_refusal: true,
        }
    }

    pub fn is_refusal(&self) -> bool
        ensures { result ≡ self.now.is_refusal }
    {
        self.is_refusal
    }

    /// Writes the piece.
    #[tactic(auto, using(crate::proofs::Cut::all_one, crate::proofs::Cut::cut_first))]
    pub fn write<K: Sink>(&self, sink: &mut K) -> Result<(), Fault>
        ensures finished { OnOk result (AllWritten (self.now ∷ []) (K.taken sink.old) (K.taken sink.new)) }
        ensures broken { IfErr result (λ fault. IsCut fault (self.now ∷ []) (K.taken sink.old) (K.taken sink.new)) }
        ensures front { IsErrOf result Fault.Write → WritesFront (K.taken sink.old) (K.taken sink.new) self.now.text }
        ensures none { IsErrOf result Fault.Memory → K.taken sink.new ≡ K.taken sink.old }
        ensures no_read { IsErrOf result Fault.Read → ⊥ }
        ensures later { K.faults sink.old ≤ K.faults sink.new }
        ensures cause { IsErrOf result Fault.Write → Rose (K.faults sink.old) (K.faults sink.new) }
        ensures same { StaysUnless Fault.Write result (K.faults sink.old) (K.faults sink.new) }
    {
        match sink.write_all(&self.text) {
            Ok(()) => Ok(()),
            Err(OutFault::Failed) => Err(Fault::Write),
            Err(OutFault::Memory) => Err(Fault::Memory),
        }
    }
}
