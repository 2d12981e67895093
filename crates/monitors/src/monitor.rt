//! The interface of monitors.

ghost use Rattle.std.specs.Prelude.{◌≡◌, ◌++◌, OnOk, OnErr};
ghost use Rattle.monitors.specs.States.{State, behind, report_of, IsFrontAdded};

use crate::facts::PictureFacts;
use pw_outside::NoMemory;

/// Receives the facts of each picture, and reports at the end.
pub trait Monitor: Drop {
    /// The state: the bytes that the monitor would report after each list of further pictures.
    ghost state: { Self → State };

    /// Adds a picture's facts. After `NoMemory` the state is unchanged.
    fn picture(&mut self, facts: &PictureFacts) -> Result<(), NoMemory>
        ensures ok { OnOk result (state self.new ≡ behind (state self.old) facts.now) }
        ensures err { OnErr result (state self.new ≡ state self.old) };

    /// Appends the report so far. After `NoMemory` a prefix of it was appended.
    fn report(&self, text: &mut Vec<u8>) -> Result<(), NoMemory>
        ensures ok { OnOk result (text.new.items ≡ text.old.items ++ report_of (state self.now)) }
        ensures err { OnErr result (IsFrontAdded text.old.items text.new.items (report_of (state self.now))) };
}

/// A boxed monitor is a monitor.
impl Monitor for Box<dyn Monitor> {
    ghost state = { λ b. (Monitor-box b).state b.value };

    fn picture(&mut self, facts: &PictureFacts) -> Result<(), NoMemory> {
        (**self).picture(facts)
    }

    fn report(&self, text: &mut Vec<u8>) -> Result<(), NoMemory> {
        (**self).report(text)
    }
}

/// Appends bytes. After `NoMemory` the text is unchanged.
pub(crate) fn append(text: &mut Vec<u8>, bytes: &[u8]) -> Result<(), NoMemory>
    ensures ok { OnOk result (text.new.items ≡ text.old.items ++ bytes.now) }
    ensures err { OnErr result (text.new.items ≡ text.old.items) }
{
    match text.extend_from_slice(bytes) {
        Ok(()) => Ok(()),
        Err(_) => Err(NoMemory),
    }
}
