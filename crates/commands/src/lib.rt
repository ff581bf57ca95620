// What holds of a command by itself: its units, and the command that undoes it.
#![tactic(auto)]

ghost use Rattle.std.specs.Prelude.{◌≡◌};
ghost use Rattle.sheet.specs.Units.{units};
ghost use Rattle.sheet.specs.Effect.{undone};

use sheet::Command;

// The units of a command: one for a product or a division, none for a swap or a flip.
pub fn units_of(c: Command) -> usize
    ensures { result ≡ units c }
{
    match c {
        Command::Lmul(_) => 1,
        Command::Rmul(_) => 1,
        Command::Ldiv(_) => 1,
        Command::Rdiv(_) => 1,
        Command::Swap(_) => 0,
        Command::Flip(_) => 0,
        Command::Kmul(_, _) => 1,
        Command::Kdiv(_, _) => 1,
    }
}

// The command that undoes a command.
pub fn opposite(c: Command) -> Command
    ensures { result ≡ undone c }
{
    match c {
        Command::Lmul(p) => Command::Ldiv(p),
        Command::Rmul(p) => Command::Rdiv(p),
        Command::Ldiv(p) => Command::Lmul(p),
        Command::Rdiv(p) => Command::Rmul(p),
        Command::Swap(p) => Command::Swap(p),
        Command::Flip(d) => Command::Flip(d),
        Command::Kmul(d, k) => Command::Kdiv(d, k),
        Command::Kdiv(d, k) => Command::Kmul(d, k),
    }
}
