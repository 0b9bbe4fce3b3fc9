//! The law of tables. Its function does nothing: what it ensures is the law, for a caller to use.
ghost use Rattle.std.specs.Prelude.{◌≡◌, List, Some};
ghost use Rattle.case_table.specs.Table.{AreDistinct, StandsIn, code_of};
ghost use Rattle.case_table.specs.declared.cases.Case.{Case as AnyCase};

/// Where no two rows share group and name, each row is found by its own group and name.
pub fn found_by_its_own()
    ensures { (rows : List AnyCase) (row : AnyCase) → AreDistinct rows → StandsIn rows row → code_of rows row.group row.name.now ≡ Some row.code }
{}
