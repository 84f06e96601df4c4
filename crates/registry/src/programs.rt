//! Programs, as a list from a first version on.
ghost use Rattle.std.specs.Prelude.{◌≡◌, ◌<◌, ◌≤◌, ◌+◌, ◌-◌, ◌∷◌, [], ◌++◌, length, map, drop, slice_get, Some, OnOk, OnErr};
ghost use Rattle.std.specs.Arc.{arc_value};
ghost use Rattle.std.specs.Option.{option_map};
ghost use Rattle.std.specs.Vec.{vec_len, vec_capacity};
ghost use Rattle.service_profile.specs.Machine.{program_from};

use std::alloc::AllocError;
use std::sync::Arc;
use verifier::Verified;

/// The program of a version.
pub(crate) fn program_from(
    first_version: u64,
    programs: &[Arc<Verified>],
    version: u64,
) -> Option<&Arc<Verified>>
    ensures { option_map (λ p. arc_value p.now) result ≡ program_from first_version (map arc_value programs.now) version }
{
    if version < first_version {
        return None;
    }
    programs.get((version - first_version) as usize)
}

/// The last program.
pub(crate) fn last(programs: &[Arc<Verified>]) -> &Arc<Verified>
    requires { 1 ≤ length programs.now }
    ensures { slice_get programs.now (length programs.now - 1) ≡ Some result.now }
{
    &programs[programs.len() - 1]
}

/// Makes room for one program more. Without memory nothing changes.
pub(crate) fn make_room(programs: &mut Vec<Arc<Verified>>) -> Result<(), AllocError>
    ensures programs { programs.new.items ≡ programs.old.items }
    ensures len { vec_len programs.new ≡ vec_len programs.old }
    ensures ok { OnOk result (vec_len programs.new < vec_capacity programs.new) }
    ensures full { OnErr result (vec_capacity programs.old - vec_len programs.old ≡ 0) }
    ensures err { OnErr result (vec_capacity programs.new ≡ vec_capacity programs.old) }
{
    programs.reserve(1)
}

/// Adds a program behind the others.
pub(crate) fn add(programs: &mut Vec<Arc<Verified>>, program: Arc<Verified>)
    requires { vec_len programs.old < vec_capacity programs.old }
    ensures programs { map arc_value programs.new.items ≡ map arc_value programs.old.items ++ arc_value program ∷ [] }
    ensures len { vec_len programs.new ≡ vec_len programs.old + 1 }
    ensures capacity { vec_capacity programs.new ≡ vec_capacity programs.old }
{
    programs.push_reserved(program);
}

/// Drops the first programs, so many, and keeps at least one.
pub(crate) fn drop_first(programs: &mut Vec<Arc<Verified>>, count: usize)
    requires { count < vec_len programs.old }
    ensures programs { map arc_value programs.new.items ≡ drop count (map arc_value programs.old.items) }
    ensures len { vec_len programs.new ≡ vec_len programs.old - count }
    ensures capacity { vec_capacity programs.new ≡ vec_capacity programs.old }
{
    let staying = programs.len() - count;
    programs.rotate_left(count);
    programs.truncate(staying);
}

/// Keeps the last program alone.
pub(crate) fn keep_last(programs: &mut Vec<Arc<Verified>>)
    requires { 1 ≤ vec_len programs.old }
    ensures programs { map arc_value programs.new.items ≡ drop (length programs.old.items - 1) (map arc_value programs.old.items) }
    ensures len { vec_len programs.new ≡ 1 }
    ensures capacity { vec_capacity programs.new ≡ vec_capacity programs.old }
{
    if let Some(last) = programs.pop() {
        programs.clear();
        programs.push_reserved(last);
    }
}
