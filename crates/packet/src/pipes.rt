// The list of seven pipes.
ghost use Rattle.std.specs.Prelude.{◌≡◌, not, ◌&&◌, [], ◌∷◌, ◌<◌, eqb, length, MatchOption, IfOk};
ghost use Rattle.aes.specs.Byte.{below, table, place};
ghost use Rattle.packet.specs.Packet.{pid_at, schedule_at, starting_block};
ghost use Rattle.packet.specs.Pid.{assignable};
ghost use Rattle.aes.specs.Reply.{◌else◌, refusal};
ghost use Rattle.aes.specs.Refusal.{reply};

use crate::pid::assignable;
use aes::reply::Refusal;
use cbc::sixteen_at;

// A list of its length.
#[derive(Clone, Copy)]
pub(crate) struct Pipes<'a> {
    pub(crate) bytes: &'a [u8],
    ghost whole: { length bytes.now ≡ 3486 },
}

impl<'a> Pipes<'a> {
    pub(crate) fn checked(bytes: &'a [u8]) -> Result<Self, Refusal>
        ensures told { reply result ≡ refusal ((eqb (length bytes.now) 3486 && below 7 (λ k. assignable (pid_at bytes.now k)) && below 7 (λ k. below k (λ j. not (eqb (pid_at bytes.now j) (pid_at bytes.now k)))) else 22) ∷ []) }
        ensures lent { IfOk result (λ p. p.bytes.now ≡ bytes.now) }
    {
        if bytes.len() != 3486 {
            return Err(Refusal::PipesWrong);
        }
        let pipes = Pipes { bytes };
        if !pipes.are_right() {
            return Err(Refusal::PipesWrong);
        }
        Ok(pipes)
    }

    fn pid_at(&self, k: usize) -> u16
        requires { k < 7 }
        ensures { result ≡ pid_at self.now.bytes.now k }
    {
        let a = 498 * k;
        self.bytes[a] as u16 * 256 + self.bytes[a + 1] as u16
    }

    // Whether none of the pipes before has this one's PID.
    fn is_new(&self, k: usize) -> bool
        requires { k < 7 }
        ensures { result ≡ below k (λ j. not (eqb (pid_at self.now.bytes.now j) (pid_at self.now.bytes.now k))) }
    {
        let own = self.pid_at(k);
        let mut new = true;
        for j in 0..k {
            new &= self.pid_at(j) != own;
        }
        new
    }

    // Whether each PID may be assigned, and none is there twice.
    fn are_right(&self) -> bool
        ensures { result ≡ (below 7 (λ k. assignable (pid_at self.now.bytes.now k)) && below 7 (λ k. below k (λ j. not (eqb (pid_at self.now.bytes.now j) (pid_at self.now.bytes.now k))))) }
    {
        let mut assigned = true;
        let mut single = true;
        for k in 0..7 {
            assigned &= assignable(self.pid_at(k));
            single &= self.is_new(k);
        }
        assigned & single
    }

    // The pipe that has a PID.
    pub(crate) fn pipe_of(&self, pid: u16) -> Option<usize>
        ensures { MatchOption result (place pid (table (pid_at self.now.bytes.now) 7) ≡ 7) (λ k. (k < 7) × (k ≡ place pid (table (pid_at self.now.bytes.now) 7))) }
    {
        for k in 0..7 {
            if self.pid_at(k) == pid {
                return Some(k);
            }
        }
        None
    }

    // The schedule of a pipe, even or odd.
    pub(crate) fn schedule(&self, k: usize, odd: bool) -> &[u8]
        requires { k < 7 }
        ensures { (result.now ≡ schedule_at self.now.bytes.now k odd) × (length result.now ≡ 240) }
    {
        let a = 498 * k + if odd { 242 } else { 2 };
        &self.bytes[a..a + 240]
    }

    pub(crate) fn starting_block(&self, k: usize) -> [u8; 16]
        requires { k < 7 }
        ensures { result ≡ starting_block self.now.bytes.now k }
    {
        sixteen_at(self.bytes, 498 * k + 482)
    }
}
