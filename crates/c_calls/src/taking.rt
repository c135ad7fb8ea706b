//! `read!`, `change!`: what a call does with its loan or its handle. Each is the whole body of an export, whose clauses
//! refuse a macro that keeps the loan or loses what the handle owned. `$answer` has no `return` and no `?`: it would
//! leave before the value is put back.

/// Reads what is lent: the answer, or NOTHING if nothing is lent. The loan is put back.
#[macro_export]
macro_rules! read {
    ($loan:ident, $value:ident => $answer:expr) => {{
        let lent = $loan.take();
        let answer = match lent.get() {
            None => $crate::code::NOTHING,
            Some($value) => $answer,
        };
        $loan.put(lent);
        answer
    }};
}

/// Changes what a handle owns: the answer, or NOTHING if it owns nothing. What it owns is put back.
#[macro_export]
macro_rules! change {
    ($handle:ident, $alloc:ident, $value:ident => $answer:expr) => {
        match $handle.take($alloc) {
            None => $crate::code::NOTHING,
            Some(owned) => {
                let mut $value = owned;
                let answer = $answer;
                $handle.put($value);
                answer
            }
        }
    };
}
