// What the module's host does about a reply.
ghost use Rattle.std.specs.Prelude.{◌≡◌};
ghost use Rattle.beside.specs.Host.{sorted_number, sort_reply_of};

#[derive(Clone, Copy, PartialEq, Eq)]
pub enum Sorted {
    GoOn,
    CallerFault,
    DataFault,
}

// Any number has an answer: one that no call replies with is a caller fault.
pub fn sort_reply(number: u8) -> Sorted
    ensures { sorted_number result ≡ sort_reply_of number }
{
    match number {
        0 => Sorted::GoOn,
        1..=8 => Sorted::CallerFault,
        9..=13 | 18 | 20..=21 | 23 => Sorted::DataFault,
        _ => Sorted::CallerFault,
    }
}
