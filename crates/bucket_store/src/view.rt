//! A bucket as it is seen, wherever its bytes lie.

ghost use Rattle.std.specs.Prelude.{◌≡◌};
ghost use Rattle.run_model.specs.Cutting.{length_of};
ghost use Rattle.bucket_store.specs.Views.{content_of, bucket_of};

use run_model::{Bucket, Content, Home, Kind};

/// What a bucket holds.
#[derive(Clone, Copy)]
pub enum ContentView<'a> {
    /// Bytes in memory.
    Bytes(&'a [u8]),
    /// `len` bytes, from the byte `start` on, of the open file of this number.
    Range { file: u64, start: u64, len: u64 },
    /// Nothing, as in metadata.
    Nothing,
}

impl<'a> ContentView<'a> {
    /// A content that lies by itself.
    pub fn of(content: &'a Content) -> ContentView<'a>
        ensures { content_of result ≡ content.now }
    {
        match content {
            Content::Bytes(bytes) => ContentView::Bytes(bytes.as_slice()),
            Content::Range { file, start, len } => ContentView::Range {
                file: *file,
                start: *start,
                len: *len,
            },
            Content::Nothing => ContentView::Nothing,
        }
    }

    /// How many bytes it stands for.
    pub fn len(&self) -> u64
        ensures { result ≡ length_of (content_of self.now) }
    {
        match self {
            ContentView::Bytes(bytes) => bytes.len() as u64,
            ContentView::Range { len, .. } => *len,
            ContentView::Nothing => 0,
        }
    }
}

/// A bucket of a store.
#[derive(Clone, Copy)]
pub struct View<'a> {
    pub kind: Kind,
    pub content: ContentView<'a>,
    pub home: Home,
}

impl<'a> View<'a> {
    /// A bucket that lies by itself.
    pub fn of(bucket: &'a Bucket) -> View<'a>
        ensures { bucket_of result ≡ bucket.now }
    {
        View {
            kind: bucket.kind,
            content: ContentView::of(&bucket.content),
            home: bucket.home,
        }
    }
}
