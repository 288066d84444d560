//! The product's own rule on an option or flag that is given twice.
ghost use Rattle.std.specs.Prelude.{◌≡◌, map, string_bytes, false};
ghost use Rattle.jul_query.specs.Counting.{is_option, is_attached, counts, times, is_twice, is_counted_twice};

fn is_option(word: &str) -> bool
    ensures { result ≡ is_option word.now }
{
    word == "--source"
        || word == "--delta"
        || word == "--open"
        || word == "--workers"
        || word == "--chunk"
        || word == "--n"
        || word == "--pairs"
        || word == "--seed"
}

// Whether the word is the name, `=` and any text.
fn is_attached(name: &str, word: &str) -> bool
    ensures { result ≡ is_attached name.now word.now }
{
    let name = name.as_bytes();
    let word = word.as_bytes();
    name.len() < word.len() && word[name.len()] == b'=' && &word[..name.len()] == name
}

fn counts(name: &str, word: &str) -> bool
    ensures { result ≡ counts name.now word.now }
{
    word == name || is_option(name) && is_attached(name, word)
}

// How often the words count the name.
fn times(name: &str, words: &[String]) -> usize
    ensures { result ≡ times name.now false (map string_bytes words.now) }
{
    let mut count = 0;
    let mut is_skipped = false;
    for word in words {
        let word = word.as_str();
        if is_skipped {
            is_skipped = false;
        } else if word == "--" {
            return count;
        } else {
            if counts(name, word) {
                count += 1;
            }
            is_skipped = is_option(word);
        }
    }
    count
}

fn is_twice(name: &str, words: &[String]) -> bool
    ensures { result ≡ is_twice name.now (map string_bytes words.now) }
{
    2 <= times(name, words)
}

/// Whether an option or flag is counted twice. Takes no memory.
#[tactic(auto, unfolding(crate::specs::Counting::is_counted_twice))]
pub fn is_counted_twice(words: &[String]) -> bool
    ensures { result ≡ is_counted_twice (map string_bytes words.now) }
{
    is_twice("--source", words)
        || is_twice("--delta", words)
        || is_twice("--open", words)
        || is_twice("--workers", words)
        || is_twice("--chunk", words)
        || is_twice("--n", words)
        || is_twice("--pairs", words)
        || is_twice("--seed", words)
        || is_twice("--bare", words)
}
