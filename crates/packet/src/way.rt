// What a call makes of a packet.
// Descrambling goes by the packet's bits: only scrambling is told whether the schedule is the odd one.
#[derive(Clone, Copy)]
pub(crate) enum Way {
    Scramble(bool),
    Descramble,
}
