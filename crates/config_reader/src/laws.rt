//! The law of files.
ghost use Rattle.config_reader.specs.Outcomes.{FilesGiveOne, FilesFaultOnce, FilesDoOne};

/// What a file says is one thing: one configuration or one first fault, and never both. The function does nothing: its
/// contract is the law.
///
/// - `values`: a file is one configuration at most.
/// - `faults`: it has one first fault at most.
/// - `apart`: where it is a configuration it has no first fault.
pub fn files_say_one()
    ensures values { FilesGiveOne }
    ensures faults { FilesFaultOnce }
    ensures apart { FilesDoOne }
{}
