//! What the words of this crate are in the model.

ghost use Rattle.bucket_store.specs.Laws.{ListsAreTheModels, PointsAreTheModels};
ghost use Rattle.bucket_store.specs.Rows.{BrigadeSplits, BucketChanges};

/// Lists of named buckets, as the model has them, are changed as the model's brigades.
pub fn lists_are_the_models()
    ensures { ListsAreTheModels }
{}

/// A partition finds and leaves what it does in the model.
pub fn points_are_the_models()
    ensures { PointsAreTheModels }
{}

/// Splits of a brigade, and splits, copies and setting aside of buckets, leave what is worked out by hand.
pub fn worked_changes()
    ensures splits { BrigadeSplits }
    ensures buckets { BucketChanges }
{}
