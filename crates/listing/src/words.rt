// How the numbers and bytes of a sheet record are written.
use std::fmt;

// A team's code. Any three bytes can be written, even those of a sheet record that no reading filled.
#[derive(Clone, Copy)]
pub(crate) struct Code(pub(crate) [u8; 3]);

impl fmt::Display for Code {
    fn fmt<W: fmt::Write>(&self, f: &mut fmt::Formatter<W>) -> fmt::Result {
        for letter in self.0 {
            f.write_char(char::from(letter))?;
        }
        Ok(())
    }
}

// A group by its letter: group 0 is A.
#[derive(Clone, Copy)]
pub(crate) struct Group(pub(crate) u8);

impl fmt::Display for Group {
    fn fmt<W: fmt::Write>(&self, f: &mut fmt::Formatter<W>) -> fmt::Result {
        f.write_char(char::from(b'A'.saturating_add(self.0)))
    }
}

// So many of a thing, which takes an s unless there is one.
#[derive(Clone, Copy)]
pub(crate) struct Count(pub(crate) u16, pub(crate) &'static str);

impl fmt::Display for Count {
    fn fmt<W: fmt::Write>(&self, f: &mut fmt::Formatter<W>) -> fmt::Result {
        let Count(number, noun) = *self;
        write!(f, "{number} {noun}")?;
        if number == 1 {
            Ok(())
        } else {
            f.write_str("s")
        }
    }
}

// The title of a part, which says so where the part has nothing.
#[derive(Clone, Copy)]
pub(crate) struct Heading {
    pub(crate) title: &'static str,
    pub(crate) any: bool,
}

impl fmt::Display for Heading {
    fn fmt<W: fmt::Write>(&self, f: &mut fmt::Formatter<W>) -> fmt::Result {
        let Heading { title, any } = *self;
        write!(f, "{title}:")?;
        if any { Ok(()) } else { f.write_str(" none") }
    }
}

// The groups that a team is barred from, by the letters of the bits that are set.
#[derive(Clone, Copy)]
pub(crate) struct Letters(pub(crate) u16);

impl fmt::Display for Letters {
    fn fmt<W: fmt::Write>(&self, f: &mut fmt::Formatter<W>) -> fmt::Result {
        let barred = self.0;
        // a B without a bit is a B all the same
        if barred == 0 {
            return f.write_str("in any group");
        }
        f.write_str("not in ")?;
        let groups = (0..16).filter(|&group| barred >> group & 1 == 1);
        for (place, group) in groups.enumerate() {
            if place > 0 {
                f.write_str(", ")?;
            }
            write!(f, "{}", Group(group))?;
        }
        Ok(())
    }
}
