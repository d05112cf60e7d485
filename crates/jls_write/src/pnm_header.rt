//! The header of a PNM file.

ghost use Rattle.arrayvec.specs.ArrayVec.{array_vec_len};
ghost use Rattle.jls_write.specs.Pnm.{number_line};
ghost use Rattle.std.specs.Prelude.{◌≡◌, ◌+◌, ◌-◌, ◌≤◌, ◌++◌, length, decimal};

use arrayvec::ArrayVec;
use itoa::Buffer;
use jls_values::Shape;

/// More bytes than a header has.
pub(crate) const ROOM: usize = 80;

/// The largest sample of the precision.
pub(crate) fn largest_sample(shape: &Shape) -> u16
    ensures { result ≡ Rattle.jls_write.specs.Pnm.largest_sample shape.now }
{
    (2u32.pow(u32::from(shape.precision())) - 1) as u16
}

/// Appends a text.
fn put_text(header: &mut ArrayVec<u8, ROOM>, text: &[u8])
    requires { array_vec_len header.old + length text.now ≤ 80 }
    ensures items { header.new.items ≡ header.old.items ++ text.now }
    ensures len { array_vec_len header.new ≡ array_vec_len header.old + length text.now }
{
    match header.try_extend_from_slice(text) {
        Ok(()) => (),
        Err(_) => unreachable!(),
    }
}

/// Appends a number in decimal.
fn put_number(header: &mut ArrayVec<u8, ROOM>, n: u16)
    requires { array_vec_len header.old + 5 ≤ 80 }
    ensures items { header.new.items ≡ header.old.items ++ decimal n }
    ensures len { array_vec_len header.new ≤ array_vec_len header.old + 5 }
{
    let mut buffer = Buffer::new();
    put_text(header, buffer.format(n).as_bytes());
}

/// Appends a name, a number and a newline.
fn put_line(header: &mut ArrayVec<u8, ROOM>, name: &[u8], n: u16)
    requires { array_vec_len header.old + length name.now + 6 ≤ 80 }
    ensures items { header.new.items ≡ header.old.items ++ number_line name.now n }
    ensures len { array_vec_len header.new ≤ array_vec_len header.old + length name.now + 6 }
{
    put_text(header, name);
    put_number(header, n);
    put_text(header, b"\n");
}

/// The header of a PGM or a PPM file, after these first bytes.
fn plain_header(magic: &[u8; 3], shape: &Shape) -> ArrayVec<u8, ROOM>
    ensures { result.items ≡ Rattle.jls_write.specs.Pnm.plain_header magic.now shape.now }
{
    let mut header = ArrayVec::new();
    put_text(&mut header, magic);
    put_number(&mut header, shape.width());
    put_line(&mut header, b" ", shape.height());
    put_line(&mut header, b"", largest_sample(shape));
    header
}

/// The header of a PAM file.
fn pam_header(shape: &Shape) -> ArrayVec<u8, ROOM>
    ensures { result.items ≡ Rattle.jls_write.specs.Pnm.pam_header shape.now }
{
    let mut header = ArrayVec::new();
    put_text(&mut header, b"P7\n");
    put_line(&mut header, b"WIDTH ", shape.width());
    put_line(&mut header, b"HEIGHT ", shape.height());
    put_line(&mut header, b"DEPTH ", shape.ids().len() as u16);
    put_line(&mut header, b"MAXVAL ", largest_sample(shape));
    put_text(&mut header, b"ENDHDR\n");
    header
}

/// The header of the PNM file of a picture of this shape: PGM for one component, PPM for three, and PAM for two and four.
pub(crate) fn pnm_header(shape: &Shape) -> ArrayVec<u8, ROOM>
    ensures { result.items ≡ Rattle.jls_write.specs.Pnm.pnm_header shape.now }
{
    match shape.ids().len() {
        1 => plain_header(b"P5\n", shape),
        3 => plain_header(b"P6\n", shape),
        _ => pam_header(shape),
    }
}
