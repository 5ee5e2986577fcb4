// Runs of equal keys: which class a run falls in when it ends, and what one line more changes.
ghost use Rattle.std.specs.Prelude.{◌≡◌, ◌≤◌};
ghost use Rattle.figures.specs.Walks.{Few, ended, no_run, next_run};

use crate::runs::Run;
use rules::Figures;

// A run of `n` keys ends: "chains of 1, 2 to 4, 5 to 16 and above 16, and the longest". One of none is no run.
#[tactic(auto, using(crate::proofs::CloseLaws::end_none, crate::proofs::CloseLaws::chain_one, crate::proofs::CloseLaws::chain_four, crate::proofs::CloseLaws::chain_sixteen, crate::proofs::CloseLaws::chain_above))]
pub fn close(n: usize, f: Figures) -> Figures
    requires { Few n f }
    ensures { result ≡ ended n f }
{
    if n == 0 {
        return f;
    }
    let chain = Figures {
        keys: f.keys + 1,
        all: n + f.all,
        longest: n.max(f.longest),
        ..f
    };
    // The counts of the other classes are not touched: the walk over the lines makes this step at every key.
    match n {
        1 => Figures {
            one: f.one + 1,
            ..chain
        },
        2..=4 => Figures {
            four: f.four + 1,
            ..chain
        },
        5..=16 => Figures {
            sixteen: f.sixteen + 1,
            ..chain
        },
        _ => Figures {
            above: f.above + 1,
            ..chain
        },
    }
}

// No key yet.
pub fn no_run() -> Run
    ensures { result ≡ no_run }
{
    Run {
        long: 0,
        closed: Figures {
            keys: 0,
            all: 0,
            one: 0,
            four: 0,
            sixteen: 0,
            above: 0,
            longest: 0,
        },
    }
}

// One line more, which adds `more` to the run of its key: the run goes on, or ends and another begins.
pub fn next_run(r: Run, same: bool, more: usize) -> Run
    requires { (Few r.long r.closed) × (more ≤ 1) }
    ensures { result ≡ next_run same more r }
{
    if same {
        return Run {
            long: more + r.long,
            ..r
        };
    }
    Run {
        long: more,
        closed: close(r.long, r.closed),
    }
}
