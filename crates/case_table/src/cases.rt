//! Cases and tables of them.
ghost use Rattle.std.specs.Prelude.{◌≡◌, ℕ, ◌<◌, ◌↔◌, IsTrue, IfSome, IfNone, length};
ghost use Rattle.case_table.specs.Table.{code_of, are_distinct};

/// One row of a table.
#[derive(Clone, Copy, Debug, Drop)]
pub struct Case {
    /// What the name belongs to. The table's owner numbers its groups.
    pub group: u8,
    /// The name as it is written in the input.
    pub name: &'static str,
    /// What the table gives for the group and the name. Several rows may share it.
    pub code: u16,
}

/// A table of `N` rows. It is the value of a constant, as a rule, and `case_rows!` writes it.
#[derive(Clone, Copy, Debug, Drop)]
pub struct Cases<const N: usize> {
    /// The rows, of which the first with a group and a name counts.
    pub rows: &'static [Case],
    ghost whole: { length rows.now ≡ N },
}

// The code of the first row with the group and the name.
fn first_code(rows: &[Case], group: u8, name: &[u8]) -> Option<u16>
    ensures { result ≡ code_of rows.now group name.now }
{
    for row in rows {
        if row.group == group && row.name.as_bytes() == name {
            return Some(row.code);
        }
    }
    None
}

// Whether no two rows share group and name.
fn all_differ(rows: &[Case]) -> bool
    ensures { result ≡ are_distinct rows.now }
{
    let mut rest = rows;
    while let [row, later @ ..] = rest {
        if first_code(later, row.group, row.name.as_bytes()).is_some() {
            return false;
        }
        rest = later;
    }
    true
}

impl<const N: usize> Cases<N> {
    ghost use Rattle.case_table.specs.Table.{AreDistinct, HasNone, IsFirst};

    /// The code of the first row with the group and the name. None exactly where no row has both. It takes no memory,
    /// and goes over the rows from the first one on.
    pub fn find(&self, group: u8, name: &str) -> Option<u16>
        ensures value { result ≡ code_of self.now.rows.now group name.now }
        ensures first { IfSome result (λ code. IsFirst self.now.rows.now group name.now code) }
        ensures none { IfNone result (HasNone self.now.rows.now group name.now) }
    {
        self.find_bytes(group, name.as_bytes())
    }

    /// The same for a name that may not be text. A name that is not UTF-8 has no row.
    pub fn find_bytes(&self, group: u8, name: &[u8]) -> Option<u16>
        ensures value { result ≡ code_of self.now.rows.now group name.now }
        ensures first { IfSome result (λ code. IsFirst self.now.rows.now group name.now code) }
        ensures none { IfNone result (HasNone self.now.rows.now group name.now) }
    {
        first_code(self.rows, group, name)
    }

    /// Whether no two rows share group and name. It takes no memory, and compares each row with all later ones.
    pub fn distinct(&self) -> bool
        ensures value { result ≡ are_distinct self.now.rows.now }
        ensures differ { IsTrue result ↔ AreDistinct self.now.rows.now }
    {
        all_differ(self.rows)
    }
}
