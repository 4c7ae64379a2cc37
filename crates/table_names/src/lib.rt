// Names as they stand in a table, compared with bytes.
#![tactic(auto)]

ghost use Rattle.std.specs.Prelude.{◌≡◌};
ghost use Rattle.laws.specs.Bytes.{same_bytes};
ghost use Rattle.contract.specs.Decode.{word_of};

// Whether a word of the table has the bytes of a name.
// Kept: (d) a name is of bytes and a word of the table of u64s, which `==` of slices does not compare; by `zip` the line is as long, and the proof
// is of a list of pairs in place of one index.
#[tactic(auto, using(laws::proofs::Bytes::same_length))]
fn same_bytes(name: &[u8], word: &[u64]) -> bool
    ensures { result ≡ same_bytes name.now word.now }
{
    name.len() == word.len() && (0..name.len()).all(|i| u64::from(name[i]) == word[i])
}

// Whether the word whose length stands at o is a name.
pub fn same_name(table: &[u64], o: usize, name: &[u8]) -> bool
    ensures { result ≡ same_bytes name.now (word_of table.now o) }
{
    same_bytes(name, contract::bytes_at(table, o))
}
