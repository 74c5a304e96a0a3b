// PIDs, sorted by ranges.
ghost use Rattle.std.specs.Prelude.{◌≡◌, eqb};
ghost use Rattle.packet.specs.Pid.{kind_number, sort_pid_of};

#[derive(Drop)]
pub(crate) enum Kind {
    Reserved,
    Assignable,
    Null,
    Beyond,
}

pub(crate) fn sort_pid(pid: u16) -> Kind
    ensures { kind_number result ≡ sort_pid_of pid }
{
    match pid {
        0..=15 => Kind::Reserved,
        16..=8190 => Kind::Assignable,
        8191 => Kind::Null,
        _ => Kind::Beyond,
    }
}

pub(crate) fn assignable(pid: u16) -> bool
    ensures { result ≡ eqb (sort_pid_of pid) 1 }
{
    matches!(sort_pid(pid), Kind::Assignable)
}
