//! What an object gives again, as laws of the definitions. The functions do nothing: their clauses are the laws.
ghost use Rattle.std.specs.Prelude.{◌≡◌, ◌<◌, ◌^◌, ◌==◌, ℕ, List, Some, All, IsFalse};
ghost use Rattle.std.specs.List.{join_with_byte};
ghost use Rattle.taxi_base.specs.Airport.{Airport, IsWellFormed};
ghost use Rattle.taxi_text.specs.Words.{words_of};
ghost use Rattle.replies.specs.declared.block.Block.{Block};
ghost use Rattle.replies.specs.Printable.{IsPrintable};
ghost use Rattle.replies.specs.Texts.{block_text};
ghost use Rattle.serde_json.specs.Data.{Data};
ghost use Rattle.serde_json.specs.Read.{read};
ghost use Rattle.serde_json.specs.Written.{compact_text};
ghost use Rattle.transcripts.specs.Runs.{transcript};
ghost use Rattle.reply_json.specs.Lines.{command_object};
ghost use Rattle.reply_json.specs.Reading.{TellOf, command_line_of, block_text_of, transcript_of};

/// The words of a line, joined by single blanks, are the line.
pub fn words_give_the_line()
    ensures { (line : List ℕ) → join_with_byte 32 (words_of line) ≡ line }
{}

/// The object of a command gives its line, whatever bytes that has.
pub fn objects_give_the_line()
    ensures { (airport : Airport) (block : Block) (command line : ℕ) (text : List ℕ) → All (λ byte. byte < 256) text
        → command_line_of (command_object airport command line text block) ≡ text }
{}

/// The object of a command gives the text of the block that answers it, by its members alone. The objects of a run give its transcript.
pub fn objects_give_the_transcript()
    ensures block { (airport : Airport) (block : Block) (command line : ℕ) (text : List ℕ) → IsWellFormed airport → IsPrintable airport block
        → block_text_of (command_object airport command line text block) ≡ block_text airport block }
    ensures whole { (airport : Airport) (blocks : List Block) (objects : List Data) → IsWellFormed airport → All (IsPrintable airport) blocks → TellOf airport objects blocks
        → transcript_of objects ≡ transcript airport blocks }
{}

/// A reader of JSON finds the object of a command in its text, whatever bytes the command's line has. No byte of that text is a line feed. So
/// of the object's line the last byte alone is one.
pub fn objects_are_read_back()
    ensures value { (airport : Airport) (block : Block) (command line : ℕ) (text : List ℕ) → IsPrintable airport block → command < 2 ^ 64 → line < 2 ^ 64
        → read (compact_text (command_object airport command line text block)) ≡ Some (command_object airport command line text block) }
    ensures line { (airport : Airport) (block : Block) (command line : ℕ) (text : List ℕ) → IsPrintable airport block → command < 2 ^ 64 → line < 2 ^ 64
        → All (λ byte. IsFalse (byte == 10)) (compact_text (command_object airport command line text block)) }
{}
