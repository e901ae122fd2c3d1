// How many items a script has.
use ri_ends::Source;
use script_reader::{Item, ItemReader, ScriptFault};
use session_events::Event;
use std::alloc::Global;

/// How many items of each kind were read, without the end.
#[derive(Clone, Copy)]
pub struct Counts {
    pub documents: u64,
    pub events: u64,
    pub refused: u64,
}

impl Counts {
    /// Counts one more item.
    fn add(&mut self, item: &Item) {
        match item {
            Item::Event(Event::Document(_)) => self.documents = self.documents.saturating_add(1),
            Item::Event(event) if event.is_end() => {}
            Item::Event(_) => self.events = self.events.saturating_add(1),
            _ => self.refused = self.refused.saturating_add(1),
        }
    }
}

/// Reads a script to its end and counts its items. It keeps none of them.
pub fn count_items<S: Source>(alloc: Global, source: &mut S) -> Result<Counts, ScriptFault> {
    let mut reader = ItemReader::new(alloc)?;
    let mut counts = Counts {
        documents: 0,
        events: 0,
        refused: 0,
    };
    'items: while let Some(item) = reader.next_item(source)? {
        counts.add(&item);
    }
    Ok(counts)
}
