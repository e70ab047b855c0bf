//! The status of each fault on the way to a text.

ghost use Rattle.std.specs.Prelude.{◌≡◌};
ghost use Rattle.dream_top.specs.Loading.{load_status, image_status, find_status, flow_status, text_status};

use crate::load::LoadFault;
use crate::status::Status;
use c_read::TextFault;
use elf_image::ImageFault;
use elf_symbols::FindFault;
use flow_graph::FlowFault;

impl From<LoadFault> for Status {
    ghost from_gives = { λ fault status. status ≡ load_status fault };

    fn from(fault: LoadFault) -> Status {
        match fault {
            LoadFault::Fault => Status::ReadFault,
            LoadFault::TooLarge => Status::FileTooLarge,
            LoadFault::Memory => Status::NoMemory,
        }
    }
}

impl From<ImageFault> for Status {
    ghost from_gives = { λ fault status. status ≡ image_status fault };

    fn from(fault: ImageFault) -> Status {
        match fault {
            ImageFault::Elf(fault) => Status::NotElf(fault),
            ImageFault::Memory => Status::NoMemory,
        }
    }
}

impl From<FindFault> for Status {
    ghost from_gives = { λ fault status. status ≡ find_status fault };

    fn from(fault: FindFault) -> Status {
        match fault {
            FindFault::Elf(fault) => Status::NotElf(fault),
            FindFault::NoFunction => Status::NoFunction,
        }
    }
}

impl From<FlowFault> for Status {
    ghost from_gives = { λ fault status. status ≡ flow_status fault };

    fn from(fault: FlowFault) -> Status {
        match fault {
            FlowFault::Outside(place) => Status::Outside(place),
            FlowFault::Memory => Status::NoMemory,
        }
    }
}

impl From<TextFault> for Status {
    ghost from_gives = { λ fault status. status ≡ text_status fault };

    fn from(fault: TextFault) -> Status {
        match fault {
            TextFault::At(at) => Status::NotProfile(at),
            TextFault::Memory => Status::NoMemory,
        }
    }
}
