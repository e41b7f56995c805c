//! The names that the standard gives to the fields of its descriptors after bDescriptorType (USB 2.0, 9.6), each as a constant.

// The device descriptor (table 9-8); the device qualifier (table 9-9) has six of them.
pub const BCD_USB: &str = "bcdUSB";

pub const B_DEVICE_CLASS: &str = "bDeviceClass";

pub const B_DEVICE_SUB_CLASS: &str = "bDeviceSubClass";

pub const B_DEVICE_PROTOCOL: &str = "bDeviceProtocol";

pub const B_MAX_PACKET_SIZE_0: &str = "bMaxPacketSize0";

pub const ID_VENDOR: &str = "idVendor";

pub const ID_PRODUCT: &str = "idProduct";

pub const BCD_DEVICE: &str = "bcdDevice";

pub const I_MANUFACTURER: &str = "iManufacturer";

pub const I_PRODUCT: &str = "iProduct";

pub const I_SERIAL_NUMBER: &str = "iSerialNumber";

pub const B_NUM_CONFIGURATIONS: &str = "bNumConfigurations";

// The device qualifier alone (table 9-9).
pub const B_RESERVED: &str = "bReserved";

// A set's first descriptor (tables 9-10 and 9-11).
pub const W_TOTAL_LENGTH: &str = "wTotalLength";

pub const B_NUM_INTERFACES: &str = "bNumInterfaces";

pub const B_CONFIGURATION_VALUE: &str = "bConfigurationValue";

pub const I_CONFIGURATION: &str = "iConfiguration";

pub const BM_ATTRIBUTES: &str = "bmAttributes";

pub const B_MAX_POWER: &str = "bMaxPower";

// An interface association (its ECN, 9.X.Y).
pub const B_FIRST_INTERFACE: &str = "bFirstInterface";

pub const B_INTERFACE_COUNT: &str = "bInterfaceCount";

pub const B_FUNCTION_CLASS: &str = "bFunctionClass";

pub const B_FUNCTION_SUB_CLASS: &str = "bFunctionSubClass";

pub const B_FUNCTION_PROTOCOL: &str = "bFunctionProtocol";

pub const I_FUNCTION: &str = "iFunction";

// An interface (table 9-12).
pub const B_INTERFACE_NUMBER: &str = "bInterfaceNumber";

pub const B_ALTERNATE_SETTING: &str = "bAlternateSetting";

pub const B_NUM_ENDPOINTS: &str = "bNumEndpoints";

pub const B_INTERFACE_CLASS: &str = "bInterfaceClass";

pub const B_INTERFACE_SUB_CLASS: &str = "bInterfaceSubClass";

pub const B_INTERFACE_PROTOCOL: &str = "bInterfaceProtocol";

pub const I_INTERFACE: &str = "iInterface";

// An endpoint (table 9-13), which has bmAttributes too.
pub const B_ENDPOINT_ADDRESS: &str = "bEndpointAddress";

pub const W_MAX_PACKET_SIZE: &str = "wMaxPacketSize";

pub const B_INTERVAL: &str = "bInterval";

// What an endpoint of audio has after those (audio 1.0, 4.6.1.1 and 4.6.2.1).
pub const B_REFRESH: &str = "bRefresh";

pub const B_SYNCH_ADDRESS: &str = "bSynchAddress";
