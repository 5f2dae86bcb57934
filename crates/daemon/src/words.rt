//! The words of the command.
ghost use Rattle.std.specs.Prelude.{◌≡◌, map, IfNone, IfSome, List, ℕ};
ghost use Rattle.daemon.specs.Ending.{run_words};

/// The path of the configuration, where the words are `run CONFIG`.
pub fn run_path<'w>(words: &[&'w str]) -> Option<&'w str>
    ensures some { IfSome result (λ path. map (λ word. word.now) words.now ≡ run_words path.now) }
    ensures none { IfNone result ((path : List ℕ)
        → map (λ word. word.now) words.now ≡ run_words path → ⊥) }
{
    match words {
        [first, path] if *first == "run" => Some(path),
        _ => None,
    }
}
