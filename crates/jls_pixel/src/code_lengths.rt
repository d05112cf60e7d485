//! What bounds the codes of a scan's samples (ITU-T T.87, A.2.1 and A.5.3).

ghost use Rattle.jls_pixel.specs.CodeLengths.{AreLengths};

use jls_values::Params;

/// What bounds the codes of a scan's samples.
#[derive(Clone, Copy)]
pub(crate) struct CodeLengths {
    /// The bits of an escaped number.
    pub qbpp: u8,
    /// LIMIT.
    pub limit: u8,
    /// MAXVAL, the largest sample.
    pub maxval: u16,
}

impl CodeLengths {
    /// Those of these parameters.
    pub(crate) fn of(params: &Params) -> CodeLengths
        ensures { AreLengths params.now result }
    {
        CodeLengths {
            qbpp: params.qbpp(),
            limit: params.limit(),
            maxval: params.maxval(),
        }
    }
}
