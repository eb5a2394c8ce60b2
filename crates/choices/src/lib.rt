// The closed choices of the unit's calls, and the numbers by which C names their cases (include/surfgimlet.h has them too).

#![tactic(auto)]

ghost use Rattle.std.specs.Prelude.{◌≡◌};
ghost use Rattle.choices.specs.Numbers.{told, love_model, frame_of, permanent_system, system_number};

// The Earth whose Love numbers a solid tide takes (001, Table 6.1).
#[derive(Clone, Copy, Debug, PartialEq, Eq)]
pub enum LoveModel {
    Elastic,
    Anelastic,
}

// The point that a sheet's coefficients are corrected about (002, step 4).
#[derive(Clone, Copy, Debug, PartialEq, Eq)]
pub enum Frame {
    CentreOfFigure,
    CentreOfMass,
}

// What of the permanent tide a C20 holds: nothing, the Earth's answer to it, or that and the tide itself.
#[derive(Clone, Copy, Debug, PartialEq, Eq)]
pub enum PermanentSystem {
    TideFree,
    Zero,
    Mean,
}

// A number that names no case of its choice.
#[derive(Clone, Copy, Debug, PartialEq, Eq)]
pub struct NoSuchChoice;

impl TryFrom<u32> for LoveModel {
    type Error = NoSuchChoice;

    ghost try_from_gives = { λ number r. told r ≡ love_model number };

    #[tactic(auto, using(crate::proofs::Choices::past_the_cases), unfolding(crate::specs::Numbers::chosen))]
    fn try_from(number: u32) -> Result<LoveModel, NoSuchChoice> {
        match number {
            0 => Ok(LoveModel::Elastic),
            1 => Ok(LoveModel::Anelastic),
            _ => Err(NoSuchChoice),
        }
    }
}

impl TryFrom<u32> for Frame {
    type Error = NoSuchChoice;

    ghost try_from_gives = { λ number r. told r ≡ frame_of number };

    #[tactic(auto, using(crate::proofs::Choices::past_the_cases), unfolding(crate::specs::Numbers::chosen))]
    fn try_from(number: u32) -> Result<Frame, NoSuchChoice> {
        match number {
            0 => Ok(Frame::CentreOfFigure),
            1 => Ok(Frame::CentreOfMass),
            _ => Err(NoSuchChoice),
        }
    }
}

impl TryFrom<u32> for PermanentSystem {
    type Error = NoSuchChoice;

    ghost try_from_gives = { λ number r. told r ≡ permanent_system number };

    #[tactic(auto, using(crate::proofs::Choices::past_the_cases), unfolding(crate::specs::Numbers::chosen))]
    fn try_from(number: u32) -> Result<PermanentSystem, NoSuchChoice> {
        match number {
            0 => Ok(PermanentSystem::TideFree),
            1 => Ok(PermanentSystem::Zero),
            2 => Ok(PermanentSystem::Mean),
            _ => Err(NoSuchChoice),
        }
    }
}

impl From<PermanentSystem> for u32 {
    ghost from_gives = { λ system number. number ≡ system_number system };

    #[tactic(auto, unfolding(crate::specs::Numbers::system_number))]
    fn from(system: PermanentSystem) -> u32 {
        match system {
            PermanentSystem::TideFree => 0,
            PermanentSystem::Zero => 1,
            PermanentSystem::Mean => 2,
        }
    }
}
