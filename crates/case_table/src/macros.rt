//! The macros that write tables, and the arms of a match over their codes.

/// Writes a table: for each name its code and the groups that have it, and so one row for each group of each name, in
/// this order. A group is a constant.
#[macro_export]
macro_rules! case_rows {
    ($($name:literal = $code:literal in $($group:ident)+),+ $(,)?) => {
        $crate::cases::Cases {
            rows: &[
                $($($crate::cases::Case {
                    group: $group,
                    name: $name,
                    code: $code,
                },)+)+
            ],
        }
    };
}

/// Writes a whole `match` with one arm for each case. What stands in the arm is what the named macro writes: it is given
/// the words in brackets behind its name, the same for each arm, and then the case's own words.
#[macro_export]
macro_rules! each_case {
    (match $value:expr, $arm:ident!$shared:tt { $($case:pat => ($($own:tt)*)),+ $(,)? }) => {
        match $value {
            $($case => $arm!($shared $($own)*),)+
        }
    };
    (match $value:expr, $arm:ident!$shared:tt { $($case:pat => ($($own:tt)*)),+ $(,)? } else $otherwise:expr) => {
        match $value {
            $($case => $arm!($shared $($own)*),)+
            _ => $otherwise,
        }
    };
}
