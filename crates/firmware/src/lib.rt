// The firmware behind the mailbox: the CmdResp word, the state with its fresh value, and one command run to its response.
#![tactic(auto)]

ghost use Rattle.std.specs.Prelude.{◌≡◌};
ghost use Rattle.firmware.specs.Word.{word_of};
ghost use Rattle.firmware.specs.Rules.{status_number, fresh_firmware, answers, settled_of, delivery_of, run_of};

// A descriptor, saved from the parts that commands 0x82 to 0x84 bring.
#[derive(Clone, Copy)]
pub struct Descriptor {
    pub part1: u16,
    pub part2: u16,
    pub part3: u16,
}

// What is kept for one ID.
#[derive(Clone, Copy)]
pub struct Interrupt {
    pub descriptor: Option<Descriptor>,
    pub delivery: bool,
}

// The state: the interface, the parts held, and what is kept for each ID 0 to 63.
#[derive(Clone, Copy)]
pub struct Firmware {
    pub interface: bool,
    pub part1: Option<u16>,
    pub part2: Option<u16>,
    pub part3: Option<u16>,
    pub interrupts: [Interrupt; 64],
}

// The state after a command, and the response word.
#[derive(Clone, Copy)]
pub struct Ran {
    pub firmware: Firmware,
    pub word: u32,
}

// How a command went, by the number in its response.
#[derive(Clone, Copy)]
pub enum Status {
    Success = 0,
    UnknownCommand = 1,
    NoDescriptor = 2,
    InterfaceOn = 3,
    BitsSet = 0x1F,
}

// The CmdResp word of four fields, each cut to its width.
#[tactic(auto, unfolding(crate::specs::Word::word_of))]
pub fn word(response: u32, status: u32, command: u32, data: u32) -> u32
    ensures { result ≡ word_of response status command «data» }
{
    response % 2 * 0x8000_0000
        + status % 32 * 0x400_0000
        + command % 1024 * 0x1_0000
        + data % 0x1_0000
}

impl Firmware {
    // The command codes of source 000, 2.3.2. Numbers and no enum, since any of 1,024 codes may be asked.
    pub const DISABLE_INTERFACE: u32 = 0x80;

    pub const QUERY_INTERFACE: u32 = 0x81;

    pub const SET_PART1: u32 = 0x82;

    pub const SET_PART2: u32 = 0x83;

    pub const SET_PART3: u32 = 0x84;

    pub const ENABLE_DELIVERY: u32 = 0x85;

    // The interface on, no part held, nothing kept for any ID.
    pub fn fresh() -> Self
        ensures { result ≡ fresh_firmware }
    {
        let nothing = Interrupt {
            descriptor: None,
            delivery: false,
        };
        Firmware {
            interface: true,
            part1: None,
            part2: None,
            part3: None,
            interrupts: [nothing; 64],
        }
    }

    // Where all three parts are held, they are saved under their ID instead.
    #[tactic(auto, unfolding(crate::specs::Rules::settled_of))]
    fn settled(self) -> Self
        ensures { result ≡ settled_of self }
    {
        let (Some(part1), Some(part2), Some(part3)) = (self.part1, self.part2, self.part3) else {
            return self;
        };
        let mut next = Firmware {
            part1: None,
            part2: None,
            part3: None,
            ..self
        };
        let id = usize::from(part3 / 1024 % 64);
        next.interrupts[id].descriptor = Some(Descriptor {
            part1,
            part2,
            part3,
        });
        next
    }

    // This state, and the response with a status.
    fn answers(self, status: Status, command: u32, data: u32) -> Ran
        ensures { result ≡ answers self (status_number status) command «data» }
    {
        Ran {
            firmware: self,
            word: word(1, status as u32, command, data),
        }
    }

    // Command 0x85.
    #[tactic(auto, unfolding(crate::specs::Rules::delivery_of))]
    fn delivery(self, data: u32) -> Ran
        ensures { result ≡ delivery_of self «data» }
    {
        if self.interface {
            return self.answers(Status::InterfaceOn, Firmware::ENABLE_DELIVERY, data);
        }
        if data / 2 % 512 != 0 {
            return self.answers(Status::BitsSet, Firmware::ENABLE_DELIVERY, data);
        }
        let id = (data / 1024 % 64) as usize;
        if self.interrupts[id].descriptor.is_none() {
            return self.answers(Status::NoDescriptor, Firmware::ENABLE_DELIVERY, data);
        }
        let mut next = self;
        next.interrupts[id].delivery = data % 2 == 1;
        next.answers(Status::Success, Firmware::ENABLE_DELIVERY, data)
    }

    // One command word run to its response.
    #[tactic(auto, unfolding(crate::specs::Rules::rule_of))]
    pub fn run(self, asked: u32) -> Ran
        ensures { result ≡ run_of self asked }
    {
        let command = asked / 0x1_0000 % 1024;
        let data = asked % 0x1_0000;
        let part = Some(data as u16);
        match command {
            Firmware::DISABLE_INTERFACE => {
                let next = Firmware {
                    interface: false,
                    ..self
                };
                next.answers(Status::Success, command, data)
            }
            Firmware::QUERY_INTERFACE => self.answers(
                Status::Success,
                command,
                u32::from(self.interface),
            ),
            Firmware::SET_PART1 => {
                let next = Firmware {
                    part1: part,
                    ..self
                };
                next.settled().answers(Status::Success, command, data)
            }
            Firmware::SET_PART2 => {
                let next = Firmware {
                    part2: part,
                    ..self
                };
                next.settled().answers(Status::Success, command, data)
            }
            Firmware::SET_PART3 => {
                let next = Firmware {
                    part3: part,
                    ..self
                };
                next.settled().answers(Status::Success, command, data)
            }
            Firmware::ENABLE_DELIVERY => self.delivery(data),
            _ => self.answers(Status::UnknownCommand, command, data),
        }
    }
}
