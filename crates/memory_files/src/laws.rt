//! What holds of logs of writes, for crates above to cite. No function here does anything.
ghost use Rattle.std.specs.Prelude.{◌≡◌, ℕ, IsTrue, false, List};
ghost use Rattle.file_info.specs.Content.{FileVersion, content, Text};
ghost use Rattle.file_info.specs.declared.info.Form.{Form};
ghost use Rattle.file_info.specs.declared.info.Form.TheVariants.{Link};
ghost use Rattle.memory_files.specs.declared.write.Write.{Write};
ghost use Rattle.memory_files.specs.Log.{last_of, info_of, is_directory, standing, Tells, numbered_from, map_of};
ghost use Rattle.memory_files.specs.Edits.{above, leads_through, after_set};

/// The map that is made of writes with the numbers from 1 on tells each of them.
pub fn numbered_writes_tell()
    ensures { (writes : List Write) → IsTrue (numbered_from 1 writes) → Tells writes (map_of writes) }
{}

/// Where a map tells all writes, the content that it gives at what stands is what stands.
pub fn told_contents_stand()
    ensures { (writes : List Write) (m : List FileVersion) (path : List ℕ) (form : Form) → Tells writes m
        → content m path (info_of (last_of writes path) form) ≡ standing writes path form }
{}

/// A file that is set stands, where no file or link stands in the way and no directory stands there.
pub fn set_files_stand()
    ensures { (writes : List Write) (path text : List ℕ) (form : Form) → leads_through writes (above path) ≡ false
        → is_directory (info_of (last_of writes path) Link) ≡ false
        → standing (after_set writes path text) path form ≡ Text text }
{}
