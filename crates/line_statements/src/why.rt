/// Why a line is bad.
#[derive(Clone, Copy, Debug, PartialEq, Eq)]
pub enum Why {
    /// The first word, or the one behind `query`, `cut` or `policy`, is none that may stand there.
    Word,
    /// A word in the place of a number is none below 2^64.
    Number,
    /// The line has more or fewer words than its form.
    Count,
    /// A number lies outside its range: 0 to 63 for pattern nodes, 1 to 64 for fragments, 1 to 16 for lanes, 0 to
    /// 1,000,000 for the rounds of a policy, 1 to 1,000,000 for its batches, 0 to 4,294,967,295 for all others.
    Range,
    /// The line repeats one that may stand once: the query, each kind of setting (a policy of any kind is one), a vertex's
    /// own line, a pattern node's number.
    Twice,
    /// The line is edge line 4,000,001 or link line 4,097, or brings vertex 1,000,001.
    TooMany,
    /// The line behind the last: there is no query.
    NoQuery,
    /// The line behind the last: the query's vertex stands in no edge, and on no line of its own.
    NoSource,
    /// The line behind the last: the query is a simulation, and there is no pattern node, or a link names a number that no
    /// node has.
    NoPattern,
    /// The line has more than 4,096 bytes before its line feed, or byte 268,435,457 of the input. This comes before all
    /// other causes.
    TooLong,
}
