//! What a desk keeps of the commands that it accepted.
ghost use Rattle.std.specs.Prelude.{◌≡◌, ◌++◌, ◌∷◌, []};
ghost use Rattle.xm_desk.specs.Journals.{accepted_so_far};

use std::alloc::Allocator;
use std::marker::Model;
use std::mem;
use std::snapshot::Snapshot;
use xm_memory::OutOfMemory;
use xm_rules::Command;

/// What is kept of the commands that a desk accepted. A clause sees all of them, whatever is kept.
pub trait Journaling: Sized + Drop {
    ghost use Rattle.std.specs.Prelude.{◌≡◌, ◌++◌, ◌∷◌, ◌<◌, ◌≤◌, ℕ, List, [], OnOk};
    ghost use Rattle.xm_rules.specs.declared.commands.Command.{Command};

    /// The commands, the first one first.
    ghost commands: { Self → List Command };

    /// For how many more there is room.
    ghost room: { Self → ℕ };

    /// Makes room for so many more.
    fn reserve(&mut self, more: usize) -> Result<(), OutOfMemory>
        ensures commands { commands self.new ≡ commands self.old }
        ensures room { OnOk result (more ≤ room self.new) };

    /// Adds a command, for which there is room.
    fn add(&mut self, command: &Command)
        requires { 0 < room self.old }
        ensures { commands self.new ≡ commands self.old ++ command.now ∷ [] };
}

/// All commands are kept, and can be read.
pub struct KeptJournal<A: Allocator + Copy> {
    commands: Vec<Command, A>,
}

// In a function of its own, so that whoever drops one proves one call.
impl<A: Allocator + Copy> Drop for KeptJournal<A> {
    fn drop(self) {
        let KeptJournal {
            commands: _commands,
        } = self;
    }
}

impl<A: Allocator + Copy> KeptJournal<A> {
    /// No command.
    pub(crate) fn new(alloc: A) -> KeptJournal<A>
        ensures { result.commands.items ≡ [] }
    {
        KeptJournal {
            commands: Vec::new(alloc),
        }
    }

    /// The commands.
    pub(crate) fn as_slice(&self) -> &[Command]
        ensures { result.now ≡ self.now.commands.items }
    {
        self.commands.as_slice()
    }
}

impl<A: Allocator + Copy> Journaling for KeptJournal<A> {
    ghost use Rattle.std.specs.Vec.{vec_capacity, vec_len};
    ghost use Rattle.std.specs.Prelude.{◌-◌};

    ghost commands = { λ j. j.commands.items };

    ghost room = { λ j. vec_capacity j.commands - vec_len j.commands };

    #[inline(always)]
    fn reserve(&mut self, more: usize) -> Result<(), OutOfMemory> {
        self.commands.reserve(more)?;
        Ok(())
    }

    #[inline(always)]
    fn add(&mut self, command: &Command) {
        self.commands.push_reserved(*command);
    }
}

/// The command that was accepted last, and what before. A snapshot has no bytes.
#[derive(Drop)]
enum LastAccepted {
    Nothing,
    Accepted(Snapshot<Command>, Snapshot<LastAccepted>),
}

/// No command is kept: which they are, a clause alone sees.
#[derive(Drop)]
pub struct UnkeptJournal {
    last: LastAccepted,
}

impl UnkeptJournal {
    /// No command.
    pub(crate) fn new() -> UnkeptJournal
        ensures { accepted_so_far result.last ≡ [] }
    {
        UnkeptJournal {
            last: LastAccepted::Nothing,
        }
    }
}

impl Journaling for UnkeptJournal {
    ghost use Rattle.xm_desk.specs.Journals.{accepted_so_far};

    ghost commands = { λ j. accepted_so_far j.last };

    ghost room = { λ j. 18446744073709551615 };

    #[inline(always)]
    fn reserve(&mut self, _more: usize) -> Result<(), OutOfMemory> {
        Ok(())
    }

    #[inline(always)]
    fn add(&mut self, command: &Command) {
        let before = mem::replace(&mut self.last, LastAccepted::Nothing);
        self.last = LastAccepted::Accepted(Snapshot::of(command), Snapshot::of(&before));
    }
}
