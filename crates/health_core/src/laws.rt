//! The law of files.
ghost use Rattle.health_core.specs.Files.{FilesSayOne, FilesFaultOnce, FilesDoOne};

/// What a file says is one thing: one health check or one first fault, and never both. The function does nothing: its
/// contract is the law.
///
/// - `values`: a file says one health check at most.
/// - `faults`: it has one first fault at most.
/// - `apart`: where it says a health check it has no first fault.
pub fn health_files_say_one()
    ensures values { FilesSayOne }
    ensures faults { FilesFaultOnce }
    ensures apart { FilesDoOne }
{}
