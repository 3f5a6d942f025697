// The words of one micro step, in node order: counted first, then written from the front of the list's part.
// What is sent is a number: what may not change, the definitions sent_by and word_of, and atomic::sent_by, a public function. 0 sends nothing.
// Two passes: where the words do not fit, nothing may be written (NoRoom). No plainer as one walk, which would take a list of no places to count.
ghost use Rattle.std.specs.Prelude.{◌≡◌, ◌∷◌, [], ℕ, ◌≤◌, get_or, length};
ghost use Rattle.plexil.specs.Lists.{put};
ghost use Rattle.plexil.specs.Micro.{word_of, words_from};

// "twice the node number, plus 1 for an abort"; sent is 1 for a command's own word, 2 for an abort.
// No plainer as a From: a node's number and what it sends are no type.
fn word(i: u16, sent: u8) -> u32
    requires { sent ≡ 0 → ⊥ }
    ensures { word_of i sent ≡ result ∷ [] }
{
    if sent == 1 {
        2 * (i as u32)
    } else {
        2 * (i as u32) + 1
    }
}

pub fn count_words(sent: &[u8; 256], n: u16) -> u16
    requires { n ≤ 256 }
    ensures { result ≡ length (words_from (λ (i : ℕ). get_or sent.now i 0) 0 n) }
{
    let mut count: u16 = 0;
    for i in 0..n {
        if sent[i as usize] != 0 {
            count += 1;
        }
    }
    count
}

pub fn put_words(sent: &[u8; 256], n: u16, list: &mut [u32])
    requires { (n ≤ 256) × (length (words_from (λ (i : ℕ). get_or sent.now i 0) 0 n) ≤ length list.old) }
    ensures { list.new ≡ put list.old 0 (words_from (λ (i : ℕ). get_or sent.now i 0) 0 n) }
{
    let mut at: usize = 0;
    for i in 0..n {
        let w = sent[i as usize];
        if w != 0 {
            list[at] = word(i, w);
            at += 1;
        }
    }
}
