// What is shown of a ranking.

/// What is shown of a ranking.
#[derive(Debug, Drop)]
pub enum Shown {
    /// Its first results, `count` of them at most, as lines of a run where there are a topic and a run.
    Results {
        count: u32,
        labels: Option<(String, String)>,
    },
    /// Why the result of this rank, counted from 1, has its score.
    Explanation {
        rank: u32,
    },
}
