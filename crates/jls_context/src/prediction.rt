//! Predicted samples.

ghost use Rattle.std.specs.Prelude.{◌≡◌, ◌≤◌, pos, negsuc, ◌≤ℤ◌};
ghost use Rattle.jls_context.specs.Prediction;

use crate::mode::with_sign;
use jls_values::Params;

/// The prediction from Ra, Rb and Rc, which finds edges.
pub(crate) fn edge_detecting_predictor(ra: u16, rb: u16, rc: u16) -> u16
    ensures { result ≡ Rattle.jls_context.specs.Prediction.edge_detecting_predictor ra rb rc }
{
    let plane = i32::from(ra) + i32::from(rb) - i32::from(rc);
    let least = i32::from(ra.min(rb));
    let most = i32::from(ra.max(rb));
    plane.max(least).min(most) as u16
}

/// The sample from 0 to MAXVAL that is nearest to a number.
fn clamped_prediction(params: &Params, value: i32) -> u16
    ensures { result ≡ Rattle.jls_context.specs.Prediction.clamped_prediction params.now value }
{
    let maxval = params.maxval();
    if value < 0 {
        0
    } else if value > i32::from(maxval) {
        maxval
    } else {
        value as u16
    }
}

/// The prediction with SIGN times C added to it, clamped.
pub(crate) fn corrected_prediction(
    params: &Params,
    negative: bool,
    correction: i32,
    prediction: u16,
) -> u16
    requires at_least { negsuc 127 ≤ℤ correction }
    requires at_most { correction ≤ℤ pos 127 }
    ensures value { result ≡ Rattle.jls_context.specs.Prediction.corrected_prediction params.now negative correction prediction }
    ensures sample { result ≤ params.now.maxval }
{
    clamped_prediction(
        params,
        i32::from(prediction) + with_sign(negative, correction),
    )
}
