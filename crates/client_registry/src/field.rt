// The fields of a record: a byte that says how many bytes behind it are in use, and room for more.
ghost use Rattle.std.specs.Prelude.{◌≡◌, ◌+◌, ◌≤◌, length, get_or};
ghost use Rattle.client_registry.specs.Registry.{sound_text, sound_field, field_text};

use crate::layout;

// Where a field lies, and which texts it may hold: 1 to `room` bytes, each within low and high and none of them `except`.
#[derive(Clone, Copy)]
pub(crate) struct Field {
    at: usize,
    room: usize,
    low: u8,
    high: u8,
    except: u8,
}

pub(crate) const ID: Field = Field {
    at: layout::AT_ID,
    room: layout::ID_ROOM,
    low: 0x20,
    high: 0x7e,
    except: b':',
};

pub(crate) const REDIRECT: Field = Field {
    at: layout::AT_REDIRECT,
    room: layout::REDIRECT_ROOM,
    low: 0x21,
    high: 0x7e,
    except: b'#',
};

// No byte is excepted: 0 is outside the range.
pub(crate) const SECRET: Field = Field {
    at: layout::AT_SECRET,
    room: layout::SECRET_ROOM,
    low: 0x20,
    high: 0x7e,
    except: 0,
};

impl Field {
    // The bytes in use.
    pub(crate) fn text(self, r: &[u8]) -> &[u8]
        requires { self.at + 1 + get_or r.now self.at 0 ≤ length r.now }
        ensures { result.now ≡ field_text r.now self.at }
    {
        let from = self.at + 1;
        let to = from + usize::from(r[self.at]);
        &r[from..to]
    }

    // Whether 1 or more bytes are in use, no more than there is room for, all of the class, and zeros stand behind them.
    pub(crate) fn is_sound(self, r: &[u8]) -> bool
        requires { self.at + 1 + self.room ≤ length r.now }
        ensures { result ≡ sound_field (sound_text self.room self.low self.high self.except) r.now self.at self.room }
    {
        let used = usize::from(r[self.at]);
        if self.room < used {
            return false;
        }
        let from = self.at + 1;
        let end = from + self.room;
        let (text, unused) = r[from..end].split_at(used);
        (1 <= used)
            & octets::all_in_class(text, self.low, self.high, self.except)
            & octets::all_zero(unused)
    }
}
