// How deep a run is: the frames open, and the most that were, after one more act.
#![tactic(auto)]

ghost use Rattle.std.specs.Prelude.{◌≡◌, ◌<◌};
ghost use Rattle.machine.specs.Depth.{deeper, shallower, depth_after};
ghost use Rattle.frame_depth.specs.Moved.{moved_by};

use machine::{Act, Depth};

// An entry has pushed.
pub fn pushed(p: Depth) -> Depth
    requires { p.opened < 4294967295 }
    ensures { result ≡ deeper p }
{
    let opened = p.opened + 1;
    if p.deepest < opened {
        return Depth {
            opened,
            deepest: opened,
        };
    }
    Depth {
        opened,
        deepest: p.deepest,
    }
}

// A return has pulled; with none open it counts nothing.
pub fn pulled(p: Depth) -> Depth
    ensures { result ≡ shallower p }
{
    if p.opened == 0 {
        return p;
    }
    Depth {
        opened: p.opened - 1,
        deepest: p.deepest,
    }
}

// What an act does to the open frames.
#[derive(Clone, Copy)]
pub enum Move {
    Nothing,
    Pushes,
    Pulls,
}

// The depth after a move.
fn by(m: Move, p: Depth) -> Depth
    requires { p.opened < 4294967295 }
    ensures { result ≡ moved_by m p }
{
    match m {
        Move::Nothing => p,
        Move::Pushes => pushed(p),
        Move::Pulls => pulled(p),
    }
}

// The depth after an act: only an entry that pushes and a return that pulls move it. The move is a
// constant of each arm, so that nothing is left of it in the compiled code.
// Kept: without the move a run with a journal takes more host instructions (docs/DECISIONS.md).
pub fn moved(a: Act, p: Depth) -> Depth
    requires { p.opened < 4294967295 }
    ensures { result ≡ depth_after a p }
{
    match a {
        Act::Pull => by(Move::Pulls, p),
        Act::Accept(..) | Act::Fault(..) | Act::Trap(..) => by(Move::Pushes, p),
        _ => by(Move::Nothing, p),
    }
}
