// The plain definition, on lists of documents.
ghost use Rattle.std.specs.Prelude.{◌<◌, length, IfSome};

use crate::deeds::{Deed, has_prior, put, word_of, words_of};
use std::alloc::{AllocError, Global};

/// As many documents and tokens may be held.
pub const HELD_DOCS: usize = 9;

pub const HELD_TOKENS: usize = 17;

/// As many queries may be open.
const MOST: usize = 16;

fn length_of(number: usize) -> usize {
    words_of(number).split(' ').count()
}

fn tokens_of(docs: &[usize]) -> usize {
    let mut tokens = 0usize;
    for number in docs {
        tokens = tokens.saturating_add(length_of(*number));
    }
    tokens
}

/// How often the document has the word of the text.
fn count_in(number: usize, text: usize) -> usize {
    let word = word_of(text);
    words_of(number)
        .split(' ')
        .filter(|other| *other == word)
        .count()
}

/// How often the documents have it.
fn occurrences(docs: &[usize], text: usize) -> usize {
    let mut count = 0usize;
    for number in docs {
        count = count.saturating_add(count_in(*number, text));
    }
    count
}

/// The belief of a word in a document, as a fraction, where mu is 1.
fn belief(docs: &[usize], number: usize, text: usize) -> (usize, usize) {
    let twice = tokens_of(docs).max(1).saturating_mul(2);
    let found = occurrences(docs, text).saturating_mul(2).max(1);
    (
        twice
            .saturating_mul(count_in(number, text))
            .saturating_add(found),
        twice.saturating_mul(length_of(number).saturating_add(1)),
    )
}

/// The belief of the prior of a document.
fn prior(number: usize) -> (usize, usize) {
    if number == 1 { (1, 2) } else { (1, 4) }
}

/// The product of the beliefs of a text in a document.
fn product(docs: &[usize], number: usize, text: usize) -> (usize, usize) {
    let (p, q) = belief(docs, number, text);
    if !has_prior(text) {
        return (p, q);
    }
    let (r, s) = prior(number);
    (p.saturating_mul(r), q.saturating_mul(s))
}

/// Whether the first comes before the second: a greater product, or an equal one and a smaller docno.
fn is_before(docs: &[usize], text: usize, first: usize, second: usize) -> bool {
    let (p, q) = product(docs, first, text);
    let (r, s) = product(docs, second, text);
    let (one, other) = (p.saturating_mul(s), r.saturating_mul(q));
    one > other || (one == other && first < second)
}

/// The places of the word of the text in a document.
fn places(alloc: Global, number: usize, text: usize) -> Result<Vec<usize>, AllocError> {
    let word = word_of(text);
    let mut places = Vec::new(alloc);
    for (place, other) in words_of(number).split(' ').enumerate() {
        if other == word {
            places.push(place)?;
        }
    }
    Ok(places)
}

/// An open query, with the live documents of its opening.
#[derive(Drop)]
struct Query {
    name: usize,
    live: Vec<usize>,
    text: usize,
    k: usize,
    credit: usize,
}

impl Query {
    /// The documents that have the word, the best first, as many as are asked for.
    fn answer(&self, alloc: Global) -> Result<Vec<usize>, AllocError> {
        let mut ranked: Vec<usize> = Vec::new(alloc);
        for number in self.live.iter() {
            if count_in(*number, self.text) > 0 {
                let place = ranked
                    .iter()
                    .position(|other| is_before(&self.live, self.text, *number, *other));
                ranked.insert(place.unwrap_or(ranked.len()), *number)?;
            }
        }
        ranked.truncate(self.k);
        Ok(ranked)
    }

    fn is_done(&self) -> bool {
        self.credit >= self.live.len()
    }

    fn results(&self, alloc: Global, out: &mut String) -> Result<(), AllocError> {
        let ranked = self.answer(alloc)?;
        put(alloc, out, "results q# #\n", &[self.name, ranked.len()])?;
        for (place, number) in ranked.iter().enumerate() {
            let (rank, length) = (place.saturating_add(1), length_of(*number));
            put(alloc, out, "# * * d# 0 #\n", &[rank, *number, length])?;
        }
        Ok(())
    }

    /// What explains that the document has this rank.
    fn explained(
        &self,
        alloc: Global,
        out: &mut String,
        number: usize,
        rank: usize,
    ) -> Result<(), AllocError> {
        let (scale, length) = (if has_prior(self.text) { 2 } else { 1 }, length_of(number));
        put(
            alloc,
            out,
            "result # d# 0 #\nscale #\n",
            &[rank, number, length, scale],
        )?;
        self.leaf(alloc, out, number)?;
        if has_prior(self.text) {
            let (p, q) = prior(number);
            put(alloc, out, "prior 2 home belief #/#\n", &[p, q])?;
        }
        put(alloc, out, "score *\n", &[])
    }

    /// What a document has of the word.
    fn leaf(&self, alloc: Global, out: &mut String, number: usize) -> Result<(), AllocError> {
        let (tf, length) = (count_in(number, self.text), length_of(number));
        let (cf, total) = (occurrences(&self.live, self.text), tokens_of(&self.live));
        let (p, q) = belief(&self.live, number, self.text);
        put(alloc, out, "leaf 1 \"", &[])?;
        out.push_str(word_of(self.text))?;
        put(
            alloc,
            out,
            "\" tf # len # cf # total # belief #/#\n",
            &[tf, length, cf, total, p, q],
        )?;
        for place in places(alloc, number, self.text)?.iter() {
            put(alloc, out, "at # #\n", &[*place, place.saturating_add(1)])?;
        }
        Ok(())
    }
}

/// An open merge, with the dead of its start.
#[derive(Clone, Copy)]
struct Merge {
    size: usize,
    credit: usize,
    dead_documents: usize,
    dead_tokens: usize,
}

/// The live documents, how many documents and tokens are held, and what is open.
#[derive(Drop)]
pub struct Model {
    live: Vec<usize>,
    documents: usize,
    tokens: usize,
    queries: Vec<Query>,
    merge: Option<Merge>,
}

impl Model {
    /// Nothing is there.
    pub fn new(alloc: Global) -> Model {
        Model {
            live: Vec::new(alloc),
            documents: 0,
            tokens: 0,
            queries: Vec::new(alloc),
            merge: None,
        }
    }

    /// Puts what is told of a deed behind the others. `*` stands for any word.
    pub fn put_told(
        &mut self,
        alloc: Global,
        out: &mut String,
        deed: Deed,
    ) -> Result<(), AllocError> {
        match deed {
            Deed::Add(number) => self.add(alloc, out, number),
            Deed::Delete(number) => self.delete(alloc, out, number),
            Deed::Flush => put(alloc, out, "flushed #\n", &[self.live.len()]),
            Deed::Merge => self.merge(alloc, out),
            Deed::Turn(docs) => self.turn(alloc, out, docs),
            Deed::Open { name, k, text } => self.open(alloc, out, name, k, text),
            Deed::Step { name, docs } => self.step(alloc, out, name, docs),
            Deed::Show(name) => self.show(alloc, out, name),
            Deed::Explain { name, rank } => self.explain(alloc, out, name, rank),
            Deed::Scan(text) => self.scan(alloc, out, text),
            Deed::Close(name) => self.close(alloc, out, name),
            Deed::End => put(alloc, out, "ended #\n", &[self.live.len()]),
        }
    }

    fn add(&mut self, alloc: Global, out: &mut String, number: usize) -> Result<(), AllocError> {
        let length = length_of(number);
        let documents = self.documents.saturating_add(1);
        let tokens = self.tokens.saturating_add(length);
        if self.live.contains(&number) {
            return put(alloc, out, "refused Repeated d#\n", &[number]);
        }
        if documents > HELD_DOCS || tokens > HELD_TOKENS {
            return put(alloc, out, "refused CollectionFull d#\n", &[number]);
        }
        self.live.push(number)?;
        self.documents = documents;
        self.tokens = tokens;
        put(alloc, out, "added d# #\n", &[number, length])
    }

    fn delete(&mut self, alloc: Global, out: &mut String, number: usize) -> Result<(), AllocError> {
        match self.live.iter().position(|other| *other == number) {
            Some(place) => {
                self.live.remove(place);
                put(alloc, out, "deleted d#\n", &[number])
            }
            None => put(alloc, out, "refused NoSuchDoc d#\n", &[number]),
        }
    }

    fn merge(&mut self, alloc: Global, out: &mut String) -> Result<(), AllocError> {
        if self.merge.is_some() {
            return put(alloc, out, "refused MergeOpen\n", &[]);
        }
        let size = self.live.len();
        self.merge = Some(Merge {
            size,
            credit: 0,
            dead_documents: self.documents.saturating_sub(size),
            dead_tokens: self.tokens.saturating_sub(tokens_of(&self.live)),
        });
        put(alloc, out, "merging #\n", &[size])
    }

    fn turn(&mut self, alloc: Global, out: &mut String, docs: usize) -> Result<(), AllocError> {
        let Some(merge) = self.merge else {
            return put(alloc, out, "refused NoMerge\n", &[]);
        };
        let Merge { size, credit, .. } = merge;
        let credit = credit.saturating_add(docs);
        if credit < size {
            self.merge = Some(Merge { credit, ..merge });
            return put(alloc, out, "turned # of #\n", &[credit, size]);
        }
        self.merge = None;
        self.documents = self.documents.saturating_sub(merge.dead_documents);
        self.tokens = self.tokens.saturating_sub(merge.dead_tokens);
        put(alloc, out, "merged #\n", &[self.live.len()])
    }

    fn find(&self, name: usize) -> Option<usize>
        ensures { IfSome result (λ place. place < length self.now.queries.items) }
    {
        self.queries.iter().position(|query| query.name == name)
    }

    fn open(
        &mut self,
        alloc: Global,
        out: &mut String,
        name: usize,
        k: usize,
        text: usize,
    ) -> Result<(), AllocError> {
        if self.find(name).is_some() {
            return put(alloc, out, "refused NameTaken q#\n", &[name]);
        }
        if self.queries.len() >= MOST {
            return put(alloc, out, "refused DeskFull q#\n", &[name]);
        }
        let live = self.live.to_vec(alloc)?;
        self.queries.push(Query {
            name,
            live,
            text,
            k,
            credit: 0,
        })?;
        put(alloc, out, "opened q# #\n", &[name, self.live.len()])
    }

    fn step(
        &mut self,
        alloc: Global,
        out: &mut String,
        name: usize,
        docs: usize,
    ) -> Result<(), AllocError> {
        let Some(place) = self.find(name) else {
            return put(alloc, out, "refused NoSuchName q#\n", &[name]);
        };
        let query = &mut self.queries[place];
        let live = query.live.len();
        query.credit = query.credit.saturating_add(docs).min(live);
        put(
            alloc,
            out,
            "stepped q# # of #\n",
            &[name, query.credit, live],
        )
    }

    fn show(&self, alloc: Global, out: &mut String, name: usize) -> Result<(), AllocError> {
        let Some(place) = self.find(name) else {
            return put(alloc, out, "refused NoSuchName q#\n", &[name]);
        };
        let query = &self.queries[place];
        if !query.is_done() {
            return put(alloc, out, "refused NotYet q#\n", &[name]);
        }
        query.results(alloc, out)
    }

    fn explain(
        &self,
        alloc: Global,
        out: &mut String,
        name: usize,
        rank: usize,
    ) -> Result<(), AllocError> {
        let Some(place) = self.find(name) else {
            return put(alloc, out, "refused NoSuchName q#\n", &[name]);
        };
        let query = &self.queries[place];
        if !query.is_done() {
            return put(alloc, out, "refused NotYet q#\n", &[name]);
        }
        match query.answer(alloc)?.get(rank.saturating_sub(1)) {
            Some(number) => query.explained(alloc, out, *number, rank),
            None => put(alloc, out, "refused NoSuchRank q#\n", &[name]),
        }
    }

    fn scan(&self, alloc: Global, out: &mut String, text: usize) -> Result<(), AllocError> {
        for number in self.live.iter() {
            put_places(alloc, out, *number, text)?;
        }
        put(alloc, out, "scanned #\n", &[occurrences(&self.live, text)])
    }

    fn close(&mut self, alloc: Global, out: &mut String, name: usize) -> Result<(), AllocError> {
        match self.find(name) {
            Some(place) => {
                self.queries.remove(place);
                put(alloc, out, "closed q#\n", &[name])
            }
            None => put(alloc, out, "refused NoSuchName q#\n", &[name]),
        }
    }
}

/// Puts a line of a scan for each place of the word in a document behind the others.
fn put_places(
    alloc: Global,
    out: &mut String,
    number: usize,
    text: usize,
) -> Result<(), AllocError> {
    for place in places(alloc, number, text)?.iter() {
        put(
            alloc,
            out,
            "d# # #\n",
            &[number, *place, place.saturating_add(1)],
        )?;
    }
    Ok(())
}
