// What an accepted call tells: fetch and own write of the record engine, end of it and of the byte map alike, fetch of the byte map, and the
// page walk. A call that is turned away gives its `Refusal` instead. Begin has nothing to tell; a host write tells how many bytes were written,
// and show a `Record`.

#[derive(Clone, Copy)]
pub struct FetchCounts {
    // how many bytes of the span were fresh, how many were replayed, and how many records were looked at
    pub fresh: usize,
    pub replayed: usize,
    pub looked: usize,
}

// The byte map has no records to look at.
#[derive(Clone, Copy)]
pub struct MapFetchCounts {
    // how many bytes of the span were fresh, and how many were replayed
    pub fresh: usize,
    pub replayed: usize,
}

#[derive(Clone, Copy)]
pub struct EndCounts {
    // how many records and distinct bytes the command had
    pub records: usize,
    pub bytes: usize,
}

#[derive(Clone, Copy)]
pub struct OwnWriteCounts {
    // how many bytes were written, and how many of their addresses were not held before
    pub written: usize,
    pub fresh: usize,
}

#[derive(Clone, Copy)]
pub struct WalkCounts {
    // how many spans there are, and how many records the list fetches looked at
    pub spans: usize,
    pub looked: usize,
}
