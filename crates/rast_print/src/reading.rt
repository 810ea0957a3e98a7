// The canonical text is read again.
ghost use Rattle.std.specs.Prelude.{◌≡◌, ◌≤◌, ℕ, List};
ghost use Rattle.rast_ast.specs.declared.file.File.{File};
ghost use Rattle.rast_ast.specs.Files.{file_fits, file_marks};
ghost use Rattle.rast_forms.specs.Marks.{highest};
ghost use Rattle.rast_lex.specs.Meaning.{words};
ghost use Rattle.rast_lex.specs.Tokens.{AreTokens};
ghost use Rattle.rast_lex.specs.declared.token.Token.{Token};
ghost use Rattle.rast_parse.specs.Parses.{AreRead};
ghost use Rattle.rast_print.specs.FileText.{canonical};
ghost use Rattle.rast_print.specs.Readable.{IsReadable, IsReadAs};

/// The canonical text of a file of the grammar, whose names and numbers can stand in a text, has tokens, only these, and
/// they are that file.
pub fn reading_law()
    ensures { (f : File) → IsReadable f → IsReadAs (canonical f) f }
{}

/// The tokens of that text are what `parse` reads as the file alone, where no more nonterminals are open in it than may be.
pub fn parsing_law()
    ensures { (f : File) (tokens : List Token) (depth : ℕ) → IsReadable f → highest (file_marks f) ≤ depth → AreTokens (canonical f) tokens → AreRead file_marks file_fits depth (words (canonical f) tokens) f }
{}

/// No two such files have the same canonical text.
pub fn one_text_law()
    ensures { (f g : File) → IsReadable f → IsReadable g → canonical f ≡ canonical g → f ≡ g }
{}
