//! Never another picture, for whole runs. Each law is a function that does nothing and whose contract is the law.

ghost use Rattle.jls_run_laws.specs.NoOtherLaws.{SettledJoinsAreThePicture, WrittenInputsAreThePicture, WrittenInputsReadAsThePicture};

/// A law: a run of `join` is done. Each line of a picture survives in some copy among its inputs, or stands in some text of the picture's
/// shape. Its other inputs may be or read as anything. Then not each line of what it joined is settled; or they are that picture, and its
/// output was handed the text of it.
pub fn settled_joins_are_the_picture()
    ensures { SettledJoinsAreThePicture }
{}

/// A law: a run of `write` is done. Each line of a picture survives in the copy that is its input, or stands in the text of its shape that
/// is. Then its output was handed exactly the file of that picture. As JPEG-LS, with any restart interval, this file reads as that picture
/// and no other.
pub fn written_inputs_are_the_picture()
    ensures written { WrittenInputsAreThePicture }
    ensures reads { WrittenInputsReadAsThePicture }
{}
