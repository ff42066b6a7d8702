//! The word of the command line that asks for this run.
ghost use Rattle.std.specs.Prelude.{◌≡◌};
ghost use Rattle.lsp_loop.specs.Words.{asks_editor as asks_editor_spec, texts};

/// Whether the words are `--lsp` alone, the program's name not among them.
pub fn asks_editor(words: &[String]) -> bool
    ensures { result ≡ asks_editor_spec (texts words.now) }
{
    words.len() == 1 && words[0].as_str() == "--lsp"
}
