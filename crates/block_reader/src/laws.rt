//! What the grammar of blocks promises, as laws that are proved of it. The functions do nothing: their clauses are the laws.
ghost use Rattle.std.specs.Prelude.{◌≡◌, ◌<◌, ◌^◌, ℕ, List, ◌++◌, Some, decimal};
ghost use Rattle.taxi_base.specs.Airport.{Airport, IsWellFormed};
ghost use Rattle.replies.specs.declared.block.Block.{Block};
ghost use Rattle.replies.specs.Texts.{block_text};
ghost use Rattle.replies.specs.Printable.{IsPrintable};
ghost use Rattle.block_reader.specs.Fields.{number_of, count_of};
ghost use Rattle.block_reader.specs.Blocks.{block_at};
ghost use Rattle.block_reader.specs.Read.{BeginsWith};

/// A printable block that was printed is read again, whatever follows. Bytes begin with one printable block at most, and no
/// block's text is a proper prefix of another's.
pub fn blocks_are_read_again()
    ensures again { (airport : Airport) (block : Block) (rest : List ℕ) → IsWellFormed airport → IsPrintable airport block → block_at airport (block_text airport block ++ rest) ≡ Some (block, rest) }
    ensures only { (airport : Airport) (bytes : List ℕ) (block : Block) (rest : List ℕ) → IsWellFormed airport → block_at airport bytes ≡ Some (block, rest) → IsPrintable airport block × (bytes ≡ block_text airport block ++ rest) }
    ensures one { (airport : Airport) (bytes : List ℕ) (a b : Block) → IsWellFormed airport → BeginsWith airport bytes a → BeginsWith airport bytes b → a ≡ b }
    ensures prefix_free { (airport : Airport) (a b : Block) (x y : List ℕ) → IsWellFormed airport → IsPrintable airport a → IsPrintable airport b → block_text airport a ++ x ≡ block_text airport b ++ y → (a ≡ b) × (x ≡ y) }
{}

/// A word that is read as a number or a count is the one that is printed for it: there are no leading zeros.
pub fn numbers_have_one_word()
    ensures number { (word : List ℕ) (n : ℕ) → number_of word ≡ Some n → (n < 10 ^ 7) × (word ≡ decimal n) }
    ensures count { (word : List ℕ) (n : ℕ) → count_of word ≡ Some n → (n < 10 ^ 10) × (word ≡ decimal n) }
{}
