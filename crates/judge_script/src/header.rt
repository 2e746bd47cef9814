//! What the first lines say of a manager.

ghost use Rattle.std.specs.Prelude.{◌≡◌, map};
ghost use Rattle.judge_script.specs.Headers.{excused, excuses, no_rules, promised, promises, ruled};

use judge_rules::{Lacks, Never, Rules};

/// By what a manager is judged of which nothing is said.
pub(crate) const PLAIN: Rules = Rules {
    never: Never {
        heuristics: false,
        failures: false,
        rollback: false,
    },
    lacks: Lacks {
        join: false,
        suspend: false,
        migrate: false,
        threads: false,
        scan: false,
        count: false,
        opening: false,
        forced: false,
        isolation: false,
        empty_bqual: false,
    },
};

/// What is promised, with one more promise.
fn promised(never: Never, word: &str) -> Option<Never>
    ensures { result ≡ promised never word.now }
{
    match word {
        "heuristics" => Some(Never {
            heuristics: true,
            ..never
        }),
        "failures" => Some(Never {
            failures: true,
            ..never
        }),
        "rollback" => Some(Never {
            rollback: true,
            ..never
        }),
        _ => None,
    }
}

/// What is lacking, with one more excuse.
fn excused(lacks: Lacks, word: &str) -> Option<Lacks>
    ensures { result ≡ excused lacks word.now }
{
    match word {
        "join" => Some(Lacks {
            join: true,
            ..lacks
        }),
        "suspend" => Some(Lacks {
            suspend: true,
            ..lacks
        }),
        "migrate" => Some(Lacks {
            migrate: true,
            ..lacks
        }),
        "threads" => Some(Lacks {
            threads: true,
            ..lacks
        }),
        "scan" => Some(Lacks {
            scan: true,
            ..lacks
        }),
        "count" => Some(Lacks {
            count: true,
            ..lacks
        }),
        "open" => Some(Lacks {
            opening: true,
            ..lacks
        }),
        "forced" => Some(Lacks {
            forced: true,
            ..lacks
        }),
        "isolation" => Some(Lacks {
            isolation: true,
            ..lacks
        }),
        "emptybqual" => Some(Lacks {
            empty_bqual: true,
            ..lacks
        }),
        _ => None,
    }
}

/// What is promised after these words.
fn promises(never: Never, words: &[&str]) -> Option<Never>
    ensures { result ≡ promises never (map (λ s. s.now) words.now) }
{
    match words {
        [] => Some(never),
        [word, rest @ ..] => promises(promised(never, word)?, rest),
    }
}

/// What is lacking after these words.
fn excuses(lacks: Lacks, words: &[&str]) -> Option<Lacks>
    ensures { result ≡ excuses lacks (map (λ s. s.now) words.now) }
{
    match words {
        [] => Some(lacks),
        [word, rest @ ..] => excuses(excused(lacks, word)?, rest),
    }
}

/// By what a manager is judged after one more of the first lines: None, if the words make none.
pub(crate) fn ruled(rules: Rules, words: &[&str]) -> Option<Rules>
    ensures { result ≡ ruled rules (map (λ s. s.now) words.now) }
{
    match words {
        [] => None,
        [first, rest @ ..] => match *first {
            "never" => {
                let never = promises(rules.never, rest)?;
                Some(Rules { never, ..rules })
            }
            "lacks" => {
                let lacks = excuses(rules.lacks, rest)?;
                Some(Rules { lacks, ..rules })
            }
            _ => None,
        },
    }
}
