//! Changes of the versions that are held.
ghost use Rattle.std.specs.Prelude.{◌≡◌, ◌<◌, ◌≤◌, ◌+◌, ◌-◌, ◌^◌, length, [], Err, OnOk, OnErr, IfOk, IfErr};
ghost use Rattle.std.specs.Arc.{arc_value};
ghost use Rattle.service_profile.specs.Limits.{most_versions};
ghost use Rattle.registry.specs.Registries.{current_version, least_needed, next_version, with_room, with_program, with_current, without_unneeded};

use crate::holdings::Registry;
use crate::programs::{add, drop_first, keep_last, make_room};
use refusals::RefusalNumber;
use service_profile::MOST_VERSIONS;
use std::alloc::AllocError;
use std::sync::Arc;
use verifier::Verified;

impl Registry {
    /// Makes room for one program more. Without memory nothing changes.
    pub fn make_program_room(&mut self) -> Result<(), AllocError>
        ensures ok { OnOk result (0 < self.new.program_room) }
        ensures others { self.new ≡ with_room self.old self.new.program_room }
        ensures full { OnErr result (self.old.program_room ≡ 0) }
        ensures err { OnErr result (self.new ≡ self.old) }
    {
        make_room(&mut self.programs)
    }

    /// Holds a program, for which there is room, as the next version, and answers that version. Fewer than 256
    /// versions are held. It takes no memory.
    pub fn hold(&mut self, program: Arc<Verified>) -> u64
        requires room { 0 < self.old.program_room }
        requires few { length self.old.programs < most_versions }
        requires numbers { next_version self.old + 1 < 2 ^ 64 }
        ensures version { result ≡ next_version self.old }
        ensures programs { self.new ≡ with_program self.old (arc_value program) (self.old.program_room - 1) }
    {
        let version = self.next_version();
        add(&mut self.programs, program);
        version
    }

    /// Installs a program as the next version, and answers that version. The refusal is `VersionsFull` where 256
    /// versions are held, `ServiceOutOfMemory` without memory; it changes nothing. A book makes room first and holds the
    /// program once all else is settled, and doesn't call this.
    pub fn install(&mut self, program: Arc<Verified>) -> Result<u64, RefusalNumber>
        requires numbers { next_version self.old + 1 < 2 ^ 64 }
        ensures version { IfOk result (λ version. version ≡ next_version self.old) }
        ensures ok { OnOk result (self.new ≡ with_program self.old (arc_value program) self.new.program_room) }
        ensures full { most_versions ≤ length self.old.programs → result ≡ Err RefusalNumber.VersionsFull }
        ensures refused { length self.old.programs < most_versions → IfErr result (λ number. (number ≡ RefusalNumber.ServiceOutOfMemory) × (self.old.program_room ≡ 0)) }
        ensures err { OnErr result (self.new ≡ self.old) }
    {
        if self.version_count() >= MOST_VERSIONS {
            return Err(RefusalNumber::VersionsFull);
        }
        match self.make_program_room() {
            Ok(()) => Ok(self.hold(program)),
            Err(_) => Err(RefusalNumber::ServiceOutOfMemory),
        }
    }

    /// Keeps the current program alone, under its version. No ticket is open. It takes no memory. A book that is cut opens
    /// anew with one more owner of that program, and doesn't call this.
    pub fn keep_current(&mut self)
        requires { self.old.open_tickets ≡ [] }
        ensures { self.new ≡ with_current self.old }
    {
        self.first_version = self.current_version();
        keep_last(&mut self.programs);
    }

    /// Drops the programs of versions that no open ticket has and no new one will have: those before the least
    /// version that is needed. The others keep their versions. It takes no memory, and time that grows with the
    /// number of open tickets.
    pub fn drop_unneeded(&mut self)
        ensures programs { self.new ≡ without_unneeded self.old }
        ensures held { self.old.first_version ≤ least_needed self.old }
        ensures needed { least_needed self.old ≤ current_version self.old }
    {
        let least = self.open_tickets.least_version(self.current_version());
        let count = (least - self.first_version) as usize;
        drop_first(&mut self.programs, count);
        self.first_version = least;
    }
}
