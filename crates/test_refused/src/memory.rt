//! How a test says that a growth was refused: by a line, which `tools/refused-calls` reads.

/// What the test tries was refused.
pub fn says_refused(rt: &impl Print) {
    let _ = rt.println("refused");
}

/// What the test only sets up was refused, and is asked for again.
pub fn says_again(rt: &impl Print) {
    let _ = rt.println("set up again");
}

/// What this gives, asked for once more where there was no memory.
#[macro_export]
macro_rules! again {
    ($rt:expr; $asked:expr) => {
        match $asked {
            Ok(given) => given,
            Err(_) => {
                $crate::memory::says_again($rt);
                $asked?
            }
        }
    };
}
