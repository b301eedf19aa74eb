//! The laws of records: bytes are one record's at most. Each function ensures its law, so that the check proves it.

ghost use Rattle.cdc_records.specs.Checkpoint.{BytesAreOnePoint, ImageHasOnePoint};

/// A law: bytes are one checkpoint's.
pub fn bytes_are_one_point()
    ensures { BytesAreOnePoint }
{}

/// A law: an image keeps one checkpoint at most.
pub fn image_has_one_point()
    ensures { ImageHasOnePoint }
{}
