// The topic and the run that a run line names.
ghost use Rattle.std.specs.Prelude.{◌≡◌, option_map};
ghost use Rattle.std.specs.List.{list_all};
ghost use Rattle.command_words.specs.Table.{is_label, is_label_byte, labels_of};

/// The bytes of a topic or a run, at most: it stays one column of a line that people read.
pub const LABEL_BYTES: usize = 64;

fn are_label_bytes(text: &[u8]) -> bool
    ensures { result ≡ list_all is_label_byte text.now }
{
    text.iter().all(|byte| byte.is_ascii_graphic())
}

/// Whether this is a topic or a run: some bytes that are no white space, of ASCII alone.
fn is_label(text: &str) -> bool
    ensures { result ≡ is_label text.now }
{
    let bytes = text.as_bytes();
    !bytes.is_empty() && bytes.len() <= LABEL_BYTES && are_label_bytes(bytes)
}

/// The topic and the run, which are given both or neither. `None` says that they aren't so.
pub fn labels_of<'a>(
    topic: Option<&'a str>,
    run: Option<&'a str>,
) -> Option<Option<(&'a str, &'a str)>>
    ensures { option_map (λ found. option_map (λ x. (x.0.now, x.1.now)) found) result ≡ labels_of (option_map (λ s. s.now) topic.entry) (option_map (λ s. s.now) run.entry) }
{
    match (topic, run) {
        (None, None) => Some(None),
        (Some(topic), Some(run)) if is_label(topic) && is_label(run) => Some(Some((topic, run))),
        _ => None,
    }
}
