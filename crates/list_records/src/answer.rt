// An answer record: number, kind as given, two zero bytes, three values.
ghost use Rattle.std.specs.Prelude.{◌≡◌, length};
ghost use Rattle.model.specs.Record.{encode};
ghost use Rattle.list_records.specs.Said.{filled};

// An answer's number and three values, those it lacks as 0.
#[derive(Clone, Copy)]
pub struct Answer {
    pub number: u32,
    pub x: u32,
    pub y: u32,
    pub z: u32,
}

pub fn write(out: &mut [u8], kind: u32, answer: Answer)
    requires { length out.old ≡ 16 }
    ensures { out.new ≡ encode kind (filled answer) }
{
    out[0] = (answer.number % 256) as u8;
    out[1] = (kind % 256) as u8;
    out[2..4].fill(0);
    out[4..8].copy_from_slice(&answer.x.to_le_bytes());
    out[8..12].copy_from_slice(&answer.y.to_le_bytes());
    out[12..].copy_from_slice(&answer.z.to_le_bytes());
}
