//! Control files as they are sent.

ghost use Rattle.std.specs.Prelude.{◌≡◌, [], ◌∷◌, ◌++◌, IfOk, OnOk};
ghost use Rattle.control_file.specs.Written.{control_text, print_lines, text_with};
ghost use Rattle.control_file.specs.View.{contents};

use crate::control::Control;
use lpd_values::{MAX_CONTROL_TEXT, Octets};
use std::alloc::{AllocError, Global};

/// Puts a line of this letter and operand, with its LF, at the end of the text.
fn put_line(text: &mut Vec<u8>, letter: u8, operand: &[u8]) -> Result<(), AllocError>
    ensures { OnOk result (text.new.items ≡ text.old.items ++ letter ∷ (operand.now ++ 10 ∷ [])) }
{
    text.push(letter)?;
    text.extend_from_slice(operand)?;
    text.push(b'\n')?;
    Ok(())
}

impl Control {
    /// The text of the control file: a line for the host, a line for the user, and a line with `f` for each name, each with
    /// its LF (RFC 1179, section 7), but for the last one's where the text would have more than 8,192 octets by it. It is
    /// read back as an equal control file under a name with its number, where it has at most 8,192 octets.
    pub fn write(&self, alloc: Global) -> Result<Octets, AllocError>
        ensures { IfOk result (λ text. text ≡ control_text (contents self.now)) }
    {
        let mut text = self.write_lines(alloc)?;
        if text.len() > MAX_CONTROL_TEXT {
            text.pop();
        }
        Ok(Octets::from_vec(text))
    }

    /// The lines of the text, each with its LF.
    fn write_lines(&self, alloc: Global) -> Result<Vec<u8>, AllocError>
        ensures { IfOk result (λ text. text.items ≡ text_with (contents self.now)
            (print_lines self.now.prints)) }
    {
        let mut text = Vec::new(alloc);
        put_line(&mut text, b'H', self.host.as_slice())?;
        put_line(&mut text, b'P', self.user.as_slice())?;
        for name in self.prints.as_slice() {
            put_line(&mut text, b'f', name.octets())?;
        }
        Ok(text)
    }
}
