// A run of words written, and how many of them are new.
ghost use Rattle.std.specs.Prelude.{◌≡◌, ◌+◌, ◌≤◌, length};
ghost use Rattle.tree_words.specs.Tally.{tallied};

// Writes src over the words from word p on; how many of them differ from before.
pub fn put(ws: &mut [u32], p: usize, src: &[u32]) -> usize
    requires { p + length src.now ≤ length ws.old }
    ensures { ((result, ws.new) ≡ tallied p src.now ws.old) × (result ≤ length src.now) }
{
    let mut count = 0;
    for (i, &word) in src.iter().enumerate() {
        count += usize::from(ws[p + i] != word);
        ws[p + i] = word;
    }
    count
}
